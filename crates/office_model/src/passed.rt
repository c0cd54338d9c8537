//! What a table passes over of the changes of a zone.

/// Changes of a zone that were passed over, for a reader whose grants leave out some of them.
#[derive(Clone, Copy)]
pub struct Passed {
    /// How many changes they are.
    pub read: u32,
    /// How many of these have a record that the grants include.
    pub seen: u32,
}

impl Passed {
    /// No change.
    pub const NONE: Passed = Passed { read: 0, seen: 0 };
}

//! What a table knows of the changes of a zone that are still to be read.

/// What comes next among the changes of a zone, for a reader whose grants leave out some of them.
#[derive(Clone, Copy)]
pub struct Ahead {
    /// So many changes come first that have no record of those that the grants include.
    pub hidden: u32,
    /// So many of the changes after them are to be read at once.
    pub shown: u32,
}

impl Ahead {
    /// What a table says that knows nothing of them. A piece of so many changes takes little memory, and few of them a store.
    pub const UNKNOWN: Ahead = Ahead {
        hidden: 0,
        shown: 256,
    };
}

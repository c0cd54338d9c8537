//! How serving a stream ended.

/// How serving a stream ended where no fault ended it.
#[derive(Clone, Copy, Debug, PartialEq, Eq)]
pub enum Ending {
    /// The stream ended, or a response was the last.
    Answered,
    /// The deadline had passed after a response, and the stream was left there.
    Overdue,
}

//! The sides of a change.

ghost use Rattle.std.specs.Prelude.{◌≡◌};
ghost use Rattle.store_rows.specs.ChangeRows.{side_number, side_rank};
ghost use Rattle.store_rows.specs.RowReading.{side_in};

use crate::row_fault::RowFault;

/// A side of a change.
#[derive(Clone, Copy, PartialEq, Eq)]
pub enum Side {
    /// The records that went.
    Removed,
    /// The records that came.
    Added,
}

impl Side {
    /// The number of the side in rows: 0 for records that went, 1 for those that came.
    pub const fn number(self) -> i64
        ensures { result ≡ side_number self }
    {
        match self {
            Side::Removed => 0,
            Side::Added => 1,
        }
    }

    /// The place of the side among the two.
    pub(crate) const fn rank(self) -> u8
        ensures { result ≡ side_rank self }
    {
        match self {
            Side::Removed => 0,
            Side::Added => 1,
        }
    }

    /// The side of this number. Any other number is `BadRow`.
    pub(crate) fn of_number(number: i64) -> Result<Side, RowFault>
        ensures { result ≡ side_in number }
    {
        match number {
            0 => Ok(Side::Removed),
            1 => Ok(Side::Added),
            _ => Err(RowFault::BadRow),
        }
    }
}

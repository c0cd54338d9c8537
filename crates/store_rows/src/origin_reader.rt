//! The rows of `zones`, read one after the other.

use crate::columns::read_origin;
use dns_names::Name;
use std::alloc::Global;
use store_sql::{RowReader, RowsFault, ZoneRow};

/// Reads rows of `zones` as the origins that they have. A row that is the text of no name in its canonical spelling is `BadRow`.
#[derive(Drop)]
pub struct OriginReader;

impl RowReader<ZoneRow, Name> for OriginReader {
    ghost use Rattle.dns_names.specs.Labels.{IsName};
    ghost use Rattle.dns_names.specs.Spelling.{name_text};

    ghost row_of = { name_text };

    ghost is_read = { IsName };

    fn read(&mut self, alloc: Global, row: ZoneRow) -> Result<Name, RowsFault> {
        Ok(read_origin(alloc, row.origin.as_str())?)
    }
}

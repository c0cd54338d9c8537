//! What is printed on a page that takes so many octets at a time.

ghost use Rattle.std.specs.Prelude.{◌≡◌, ◌<◌};

use dns_data::Record;
use dns_master::{Counted, MasterFault, Pieces, print_records, print_relative_zone, print_zone};
use dns_names::Name;
use std::alloc::Global;
use std::marker::Brand;
use std::sync::ledger::{Blank, Ledger};

/// Records as they are printed.
#[derive(Clone, Copy)]
pub enum Sheet<'a> {
    /// The zone of an origin.
    Zone(&'a Name, &'a [Record]),
    /// The zone of an origin, relative to it.
    Relative(&'a Name, &'a [Record]),
    /// Their lines alone.
    Lines(&'a [Record]),
}

/// What a page takes of a sheet, and how printing went.
pub type Printed = (Vec<u8>, Result<(), MasterFault>);

/// What a page takes of a sheet, at most so many octets at a time.
pub fn printed(alloc: Global, sheet: Sheet<'_>, most: usize) -> Result<Vec<u8>, MasterFault> {
    let (octets, done) = printed_failing(alloc, sheet, most, 0);
    done?;
    Ok(octets)
}

/// The same of a page of which the write of a number fails, from 1 on, and 0 where none does.
pub fn printed_failing(alloc: Global, sheet: Sheet<'_>, most: usize, fails: usize) -> Printed {
    let pieces = Pieces::new(Vec::new(alloc), most, fails);
    printed_on::<Brand>(alloc, sheet, pieces, Blank::new(1))
}

fn printed_on<L: Ledger>(alloc: Global, sheet: Sheet<'_>, pieces: Pieces, blank: Blank) -> Printed
    requires name { blank.name ≡ L.name }
    requires parts { blank.parts ≡ L.parts }
    requires some { 0 < blank.parts }
{
    let mut page: Counted<Pieces, L> = Counted::new(pieces, blank);
    let done = match sheet {
        Sheet::Zone(origin, records) => print_zone(alloc, origin, records, &mut page),
        Sheet::Relative(origin, records) => print_relative_zone(alloc, origin, records, &mut page),
        Sheet::Lines(records) => print_records(alloc, records, &mut page),
    };
    (page.into_inner().octets, done)
}

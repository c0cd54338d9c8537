//! Putting a zone into a store, and printing one.

ghost use Rattle.std.specs.Prelude.{◌≡◌, ◌<◌, ◌⊎◌, Some, Ok, Err, string_bytes, IfOk, IfErr};
ghost use Rattle.std.specs.Result.{result_map_both};
ghost use Rattle.sqlite.specs.Held.{state};
ghost use Rattle.cli_text.specs.Canon.{zone_read, zone_text_in};
ghost use Rattle.zone_core.specs.Zones.{ZoneOf};
ghost use Rattle.cli_store.specs.Stores.{stores_of, IsReached, IsUnreached, IsPut, IsStored, IsRead};
ghost use Rattle.cli_core.specs.LineFaults.{Makes, GivesOf, of_store};
ghost use Rattle.cli_core.specs.declared.line_fault.LineFault.TheVariants.{NoMemory};
ghost use Rattle.cli_store.specs.Import.{imported_line, ImportWritten, ZoneStored};
ghost use Rattle.cli_store.specs.Reports.{IsReported, IsShown};
ghost use Rattle.cli_store.specs.Export.{ExportWritten, ZoneExported};

use crate::files::StoreFiles;
use crate::store_file::{StorePath, Unreached, open_or_make_store, open_store};
use crate::table_job::{TableJob, asked_by, done_at};
use cli_core::{
    Existing, Input, JobFault, LineFault, StoredZone, ZoneForm, ended, write_refusal, write_text,
};
use cli_text::{print_zone_in, read_name, read_zone};
use dns_data::Record;
use dns_master::Sink;
use dns_names::Name;
use office_store::{SqlTable, StoreFault};
use sqlite::{Alter, Connection};
use std::alloc::{AllocError, Global};
use std::fmt::{self, Display, Formatter, Write};
use std::marker::Brand;
use std::sync::ledger::{Blank, Ledger};
use zone_core::Zone;

/// The line that tells of a zone that it was imported: its origin, its serial, and the number of its records.
#[derive(Clone, Copy)]
struct ImportedLine<'a>(&'a Zone);

impl Display for ImportedLine<'_> {
    ghost output = { λ l. Some (imported_line l.0.now) };

    fn fmt<W: Write>(&self, f: &mut Formatter<W>) -> fmt::Result {
        let zone = self.0;
        writeln!(
            f,
            "imported {} serial {} records {}",
            zone.origin(),
            zone.serial(),
            zone.records().len()
        )
    }
}

/// The line of a zone that was imported. The only error is out of memory.
fn imported_text(alloc: Global, zone: &Zone) -> Result<String, AllocError>
    ensures { IfOk result (λ text. string_bytes text ≡ imported_line zone.now) }
{
    format!(in alloc; "{}", ImportedLine(zone))
}

/// A zone that is put into a table: beside the others, or in the place of the one of its origin. The refusals are those of the table:
/// `ZoneExists`, or `NoZone` and `SerialNotGreater`.
#[derive(Drop)]
pub(crate) struct ZonePut<'a> {
    pub(crate) zone: &'a Zone,
    pub(crate) existing: Existing,
}

impl TableJob<()> for ZonePut<'_> {
    // It is this zone that is put, whole or not at all.
    ghost does = { λ put now after result. IsPut put.existing put.zone.now now after result };

    fn run<S: Alter + Drop, L: Ledger>(
        &self,
        alloc: Global,
        table: &mut SqlTable<S, L>,
    ) -> Result<(), StoreFault> {
        match self.existing {
            Existing::Kept => table.put(alloc, self.zone),
            Existing::Replaced => table.put_in_place(alloc, self.zone),
        }
    }
}

/// The table of the store of a path for a zone: it is made if it is missing, unless a zone is to be replaced.
pub(crate) fn reached<S: Alter + Drop, L: Ledger, P: StoreFiles<S> + Drop>(
    alloc: Global,
    files: P,
    path: &str,
    existing: Existing,
    blank: Blank,
) -> Result<SqlTable<S, L>, Unreached<S>>
    requires name { blank.name ≡ L.name }
    requires parts { blank.parts ≡ L.parts }
    requires some { 0 < blank.parts }
    ensures reached { IfOk result (λ table. IsReached (state S.Store) (P.connects files path.now) existing table.conn) }
    ensures refused { IfErr result
        (λ un. IsUnreached (state S.Store) (P.finds files path.now) (P.refuses files path.now) (P.connects files path.now) existing un.conn un.fault) }
{
    match existing {
        Existing::Kept => open_or_make_store(alloc, files, path, blank),
        Existing::Replaced => open_store(alloc, files, path, blank),
    }
}

/// Puts a zone into the store of a path, by a ledger for the table's failures.
fn put_by<S: Alter + Drop, L: Ledger, P: StoreFiles<S> + Drop>(
    alloc: Global,
    files: P,
    path: StorePath<'_>,
    zone: &Zone,
    existing: Existing,
    blank: Blank,
) -> (Option<Connection<S>>, Result<(), StoreFault>)
    requires name { blank.name ≡ L.name }
    requires parts { blank.parts ≡ L.parts }
    requires some { 0 < blank.parts }
    ensures { IsStored (state S.Store) (P.finds files path.entry.0.now) (P.refuses files path.entry.0.now)
        (P.connects files path.entry.0.now) existing zone.now result.0 result.1 }
{
    let reached: Result<SqlTable<S, L>, _> = reached(alloc, files, path.0, existing, blank);
    match reached {
        Ok(table) => {
            let (conn, done) = done_at(alloc, table, &ZonePut { zone, existing });
            (Some(conn), done)
        }
        Err(unreached) => (unreached.conn, Err(unreached.fault)),
    }
}

/// The line of what was done, or the fault that it met.
pub(crate) fn line_of(done: Result<(), StoreFault>, text: String) -> Result<String, LineFault>
    ensures { result ≡ result_map_both (λ _. text) of_store done }
{
    match done {
        Ok(()) => Ok(text),
        Err(fault) => Err(LineFault::from(fault)),
    }
}

/// Reads a zone, and makes the line that tells of it. The line is made before the zone is put, so that memory cannot run out after it.
pub(crate) fn zone_with_line<R: Input>(
    alloc: Global,
    origin: &str,
    reader: &mut R,
) -> Result<(Zone, String), LineFault>
    ensures made { IfOk result
        (λ made. Makes (R.left reader.old) (zone_read origin.now) (Ok made.0) × R.fine reader.old reader.new × (string_bytes made.1 ≡ imported_line made.0)) }
    ensures refused { IfErr result
        (λ fault. GivesOf {X = ZoneOf} (λ zone. zone) (R.left reader.old) (zone_read origin.now) (Err fault)
        (R.fine reader.old reader.new) (R.failed reader.old reader.new)
        ⊎ ((zone : ZoneOf) × Makes (R.left reader.old) (zone_read origin.now) (Ok zone) × R.fine reader.old reader.new × (fault ≡ NoMemory))) }
{
    let zone = read_zone(alloc, origin, reader)?;
    match imported_text(alloc, &zone) {
        Ok(line) => Ok((zone, line)),
        Err(_) => Err(LineFault::NoMemory),
    }
}

/// Writes the text that was made, or the line of the fault.
pub(crate) fn report_octets<W: Sink>(
    alloc: Global,
    writer: &mut W,
    made: Result<Vec<u8>, LineFault>,
) -> Result<(), JobFault>
    ensures { IsReported (result_map_both (λ text. text.items) (λ fault. fault) made) (W.contents writer.old)
        (W.contents writer.new) result (W.failures writer.old) (W.failures writer.new) }
{
    match made {
        Ok(text) => {
            write_text(writer, &text)?;
            Ok(())
        }
        Err(fault) => Err(write_refusal(alloc, writer, fault)),
    }
}

/// Writes the line that was made, or the one of the fault.
pub(crate) fn report<W: Sink>(
    alloc: Global,
    writer: &mut W,
    made: Result<String, LineFault>,
) -> Result<(), JobFault>
    ensures { IsReported (result_map_both (λ text. string_bytes text) (λ fault. fault) made) (W.contents writer.old)
        (W.contents writer.new) result (W.failures writer.old) (W.failures writer.new) }
{
    match made {
        Ok(text) => {
            write_text(writer, text.as_bytes())?;
            Ok(())
        }
        Err(fault) => Err(write_refusal(alloc, writer, fault)),
    }
}

/// Reads a master file, builds its zone, and puts it into the store of a path, which is made if it is missing and nothing is to
/// be replaced. A line tells the zone's origin, its serial and how many records it has; or one tells the refusal that comes first: of
/// the origin, of the file, of its records as a zone, of the store, and then `ZoneExists`, or `NoZone` and `SerialNotGreater`. The
/// connection to the store is handed back, if one was made.
pub fn import<R: Input, W: Sink, S: Alter + Drop, P: StoreFiles<S> + Drop>(
    alloc: Global,
    files: P,
    what: (StoredZone<'_>, Existing),
    reader: &mut R,
    writer: &mut W,
) -> (Option<Connection<S>>, Result<(), JobFault>)
    // A refusal of the origin, of the file or of its records comes before one of the store; and where a zone was put, the line is
    // that of the zone that was read.
    ensures written { ImportWritten what.entry.0.origin.now (R.left reader.old) (W.contents writer.old) (W.contents writer.new) result.1
        (R.fine reader.old reader.new) (R.failed reader.old reader.new) (W.failures writer.old) (W.failures writer.new) }
    // It is put into the store of this path, whole, by the state that was there, and so the store is left; and a refusal is that of the
    // files, of what they hold, or of the table.
    ensures stored { ZoneStored
        (stores_of (state S.Store) (P.finds files) (P.refuses files) (P.connects files)) what.entry.0.store.now what.entry.0.origin.now what.entry.1
        (R.left reader.old) result.0 (W.contents writer.old) (W.contents writer.new) result.1 (R.fine reader.old reader.new)
        (R.failed reader.old reader.new) (W.failures writer.old) (W.failures writer.new) }
{
    let (stored, existing) = what;
    match zone_with_line(alloc, stored.origin, reader) {
        Ok((zone, line)) => {
            let (path, blank) = (StorePath(stored.store), Blank::new(1));
            let (conn, done) = put_by::<S, Brand, P>(alloc, files, path, &zone, existing, blank);
            (conn, report(alloc, writer, line_of(done, line)))
        }
        Err(fault) => (None, Err(write_refusal(alloc, writer, fault))),
    }
}

/// The records of the zone of an origin.
#[derive(Drop)]
struct RecordsOf<'a>(&'a Name);

impl TableJob<Vec<Record>> for RecordsOf<'_> {
    ghost does = { λ of now after result. IsRead (λ records. records.items) of.0.now now after result };

    fn run<S: Alter + Drop, L: Ledger>(
        &self,
        alloc: Global,
        table: &mut SqlTable<S, L>,
    ) -> Result<Vec<Record>, StoreFault> {
        table.export_records(alloc, self.0)
    }
}

/// Prints records of an origin as a master file, in a form, or the line of the fault that was met. Where memory runs out, a line tells
/// it after what went out.
fn print_held<W: Sink>(
    alloc: Global,
    form: ZoneForm,
    origin: &Name,
    held: Result<Vec<Record>, StoreFault>,
    writer: &mut W,
) -> Result<(), JobFault>
    ensures { IsShown (result_map_both (λ records. zone_text_in form origin.now records.items) of_store held) (W.contents writer.old)
        (W.contents writer.new) result (W.failures writer.old) (W.failures writer.new) }
{
    match held {
        Ok(records) => {
            let printed = print_zone_in(alloc, form, origin, &records, writer);
            ended(writer, printed)
        }
        Err(fault) => Err(write_refusal(alloc, writer, LineFault::from(fault))),
    }
}

/// Prints a zone of the store of a path as `canon` does, in a form. Otherwise a line tells the refusal that comes first: of the origin, of
/// the store, or `NoZone`. The connection to the store is handed back, if one was made.
pub fn export<W: Sink, S: Alter + Drop, P: StoreFiles<S> + Drop>(
    alloc: Global,
    files: P,
    stored: StoredZone<'_>,
    form: ZoneForm,
    writer: &mut W,
) -> (Option<Connection<S>>, Result<(), JobFault>)
    // A refusal of the origin comes before one of the store; and else what is printed is the file of the records that are held.
    ensures written { ExportWritten stored.entry.origin.now form (W.contents writer.old) (W.contents writer.new) result.1 (W.failures writer.old)
        (W.failures writer.new) }
    // They are those that the store of this path holds, and it is left as it was; and a refusal is that of the files, of what they hold, or
    // of the table.
    ensures held { ZoneExported
        (stores_of (state S.Store) (P.finds files) (P.refuses files) (P.connects files)) stored.entry.store.now stored.entry.origin.now form result.0
        (W.contents writer.old) (W.contents writer.new) result.1 (W.failures writer.old) (W.failures writer.new) }
{
    match read_name(alloc, stored.origin) {
        Ok(origin) => {
            let (path, blank) = (StorePath(stored.store), Blank::new(1));
            let (conn, held) = asked_by::<S, Brand, P, _, _>(
                alloc,
                files,
                path,
                &RecordsOf(&origin),
                blank,
            );
            (conn, print_held(alloc, form, &origin, held, writer))
        }
        Err(fault) => (None, Err(write_refusal(alloc, writer, fault))),
    }
}

//! The job `blame` with receipts: the records of a zone of a store, each with the change that brought it, and the receipts of the updates
//! that may have made that change.

ghost use Rattle.std.specs.Prelude.{◌≡◌, ◌++◌, IfOk, OnOk, length, map, option_map, slice_get, string_bytes};
ghost use Rattle.std.specs.List.{flat_map, zip};
ghost use Rattle.std.specs.Result.{result_map_both};
ghost use Rattle.sqlite.specs.Held.{state};
ghost use Rattle.zone_core.specs.Changes.{change_in};
ghost use Rattle.zone_tools.specs.Makers.{AreMakersByParts};
ghost use Rattle.cli_store.specs.Stores.{stores_of};
ghost use Rattle.cli_store.specs.BlameReceipts.{is_made, is_made_of, list_at, made_of, makers_text, receipts_in, receipts_line, sender_of, sender_text, updates_of, AreReceiptsRead, BlameEnds, IsReceiptsText, IsTextOfReceipts, ReceiptsPrinted};

use crate::files::StoreFiles;
use crate::store_file::StorePath;
use crate::table_job::{TableJob, asked_by};
use crate::zone_blame::{BlameAsked, blame, blame_asked, is_asked};
use crate::zone_history::ZoneHistory;
use crate::zones::report;
use cli_core::{Blame, BlameForm, JobFault, LineFault, StoredZone, write_refusal};
use dns_data::Record;
use dns_master::Sink;
use dns_names::Name;
use grant_policy::Identifier;
use office_model::{Receipt, UpdateReply};
use office_store::{SqlTable, StoreFault};
use sqlite::{Alter, Connection};
use std::alloc::{AllocError, Global};
use std::fmt::Write as _;
use std::marker::Brand;
use std::sync::ledger::{Blank, Ledger};
use store_rows::KeptReceipt;
use zone_core::Update;
use zone_tools::{bringers, makers};

/// What a store has of a zone, and its receipts.
#[derive(Drop)]
pub struct ZoneReceipts {
    /// The zone as it is, and its changes.
    pub history: ZoneHistory,
    /// The receipts of the store, by caller, and then by identifier.
    pub kept: Vec<KeptReceipt>,
}

/// Who sent an update, and under which identifier.
#[derive(Drop)]
pub struct Sender {
    /// The caller.
    pub caller: Identifier,
    /// The identifier that the caller gave the update.
    pub id: Identifier,
}

/// The updates that may have made the changes of a zone.
#[derive(Drop)]
struct Makers {
    /// Who sent each update.
    senders: Vec<Sender>,
    /// For each change the indexes of these updates.
    lists: Vec<Vec<usize>>,
}

/// What there is of the zone of an origin, and all receipts.
#[derive(Drop)]
struct ReceiptsOf<'a>(&'a Name);

impl TableJob<ZoneReceipts> for ReceiptsOf<'_> {
    ghost does = { λ of now after result. AreReceiptsRead of.0.now now after (result_map_both receipts_in (λ fault. fault) result) };

    fn run<S: Alter + Drop, L: Ledger>(
        &self,
        alloc: Global,
        table: &mut SqlTable<S, L>,
    ) -> Result<ZoneReceipts, StoreFault> {
        let Some(changes) = table.stored_changes(alloc, self.0)? else {
            return Err(StoreFault::NoZone);
        };
        let Some(zone) = table.stored_zone(alloc, self.0)? else {
            return Err(StoreFault::NoZone);
        };
        let kept = table.receipts(alloc)?;
        Ok(ZoneReceipts {
            history: ZoneHistory { zone, changes },
            kept,
        })
    }
}

// ---- the receipts of updates that were made

/// Whether a reply says that the update was made.
fn is_made(reply: &UpdateReply) -> bool
    ensures { result ≡ is_made reply.now }
{
    match reply {
        UpdateReply::NoError => true,
        _ => false,
    }
}

/// Whether a receipt is that of an update of the zone of an origin, and the update was made.
fn is_made_of(origin: &Name, kept: &KeptReceipt) -> bool
    ensures { result ≡ is_made_of origin.now kept.now }
{
    kept.receipt.origin == *origin && is_made(&kept.receipt.reply)
}

/// The receipts of the updates of the zone of an origin that were made.
fn made_of(origin: &Name, mut kept: Vec<KeptReceipt>) -> Vec<KeptReceipt>
    ensures { result.items ≡ made_of origin.now kept.items }
{
    kept.retain(|one| is_made_of(origin, one));
    kept
}

/// Who sent the updates of receipts, and the updates. The only error is out of memory.
fn parted(alloc: Global, made: Vec<KeptReceipt>) -> Result<(Vec<Sender>, Vec<Update>), AllocError>
    ensures { IfOk result (λ parts. (parts.0.items ≡ map sender_of made.items) × (parts.1.items ≡ updates_of made.items)) }
{
    let mut senders = Vec::with_capacity(alloc, made.len())?;
    let mut updates = Vec::with_capacity(alloc, made.len())?;
    for kept in made {
        let KeptReceipt {
            caller,
            id,
            receipt,
        } = kept;
        let Receipt { update, .. } = receipt;
        senders.push(Sender { caller, id })?;
        updates.push(update)?;
    }
    Ok((senders, updates))
}

/// The updates of receipts that may have made the changes of a zone. The only error is out of memory.
fn makers_among(
    alloc: Global,
    history: &ZoneHistory,
    made: Vec<KeptReceipt>,
) -> Result<Makers, AllocError>
    ensures senders { IfOk result (λ found. found.senders.items ≡ map sender_of made.items) }
    ensures lists { IfOk result
        (λ found. AreMakersByParts history.now.zone.origin (updates_of made.items)
        (map change_in history.now.changes.items) history.now.zone.records (map (λ places. places.items) found.lists.items)) }
{
    let (senders, updates) = parted(alloc, made)?;
    let lists = makers(alloc, &history.zone, &history.changes, &updates)?;
    Ok(Makers { senders, lists })
}

// ---- the text

/// Appends who sent the update at a place. The only error is out of memory.
fn push_sender(text: &mut String, senders: &[Sender], place: usize) -> Result<(), AllocError>
    ensures { OnOk result (string_bytes text.new ≡ string_bytes text.old ++ sender_text (slice_get senders.now place)) }
{
    match senders.get(place) {
        Some(sender) => {
            let caller = sender.caller.as_str();
            let id = sender.id.as_str();
            write!(text, " {caller} {id}")
        }
        None => Ok(()),
    }
}

/// Appends how many updates there are at places, and who sent each. The only error is out of memory.
fn push_makers(text: &mut String, senders: &[Sender], places: &[usize]) -> Result<(), AllocError>
    ensures { OnOk result (string_bytes text.new ≡ string_bytes text.old ++ makers_text senders.now places.now) }
{
    let count = places.len();
    write!(text, "{count}")?;
    for place in places {
        push_sender(text, senders, *place)?;
    }
    Ok(())
}

/// The list that goes with the change of a number, from 1.
fn list_at(lists: &[Vec<usize>], bringer: Option<u64>) -> &[usize]
    ensures { result.now ≡ list_at (map (λ places. places.items) lists.now) bringer }
{
    let Some(number) = bringer else {
        return &[];
    };
    match lists.get(number.saturating_sub(1) as usize) {
        Some(places) => places,
        None => &[],
    }
}

/// Appends the line of a record, if it is asked for. The only error is out of memory.
fn push_record(
    text: &mut String,
    name: &Option<Name>,
    found: &Makers,
    rr: &Record,
    bringer: Option<u64>,
) -> Result<(), AllocError>
    ensures { OnOk result
        (string_bytes text.new
        ≡ string_bytes text.old ++ receipts_line name.now found.now.senders.items (map (λ places. places.items) found.now.lists.items) rr.now bringer) }
{
    if !is_asked(name, rr) {
        return Ok(());
    }
    let number = bringer.unwrap_or(0);
    write!(text, "{number} ")?;
    push_makers(text, &found.senders, list_at(&found.lists, bringer))?;
    writeln!(text, " {rr}")
}

/// The lines of records, each with the change that brought it. The only error is out of memory.
fn records_text(
    alloc: Global,
    name: &Option<Name>,
    found: &Makers,
    records: &[Record],
    numbers: &[Option<u64>],
) -> Result<String, AllocError>
    requires { length numbers.now ≡ length records.now }
    ensures { IfOk result
        (λ text. string_bytes text
        ≡ flat_map
        (λ p. receipts_line name.now found.now.senders.items (map (λ places. places.items) found.now.lists.items) p.0 p.1)
        (zip records.now numbers.now)) }
{
    let mut text = String::new(alloc);
    for i in 0..records.len() {
        push_record(&mut text, name, found, &records[i], numbers[i])?;
    }
    Ok(text)
}

/// The records of a zone that are asked for, each after the number of the change that brought it and the receipts of the updates that may
/// have made that change. The only error is out of memory.
fn receipts_text(
    alloc: Global,
    asked: &BlameAsked,
    read: ZoneReceipts,
) -> Result<String, AllocError>
    ensures { IfOk result (λ text. IsReceiptsText asked.now (receipts_in read) (string_bytes text)) }
{
    let ZoneReceipts { history, kept } = read;
    let made = made_of(history.zone.origin(), kept);
    let found = makers_among(alloc, &history, made)?;
    let records = history.zone.records();
    let numbers = bringers(alloc, records, &history.changes)?;
    records_text(alloc, &asked.name, &found, records, &numbers)
}

// ---- the job

/// The text of what was read, or the fault that was met.
fn text_of(
    alloc: Global,
    asked: &BlameAsked,
    read: Result<ZoneReceipts, StoreFault>,
) -> Result<String, LineFault>
    ensures { IsTextOfReceipts asked.now (result_map_both receipts_in (λ fault. fault) read)
        (result_map_both (λ text. string_bytes text) (λ fault. fault) result) }
{
    let read = read?;
    Ok(receipts_text(alloc, asked, read)?)
}

/// Prints the records of a zone of the store of a path, or those within a name: each after the number of the change that brought it as it
/// is (0 where it was there when the zone was imported), how many receipts are of an update that may have made this change, and of each
/// the caller and the identifier. The receipts are those of updates of the zone that were answered with NOERROR, by caller and then by
/// identifier. Otherwise a line tells the refusal that comes first: of the origin, of the name, of the store, or `NoZone`. The connection
/// to the store is handed back, if one was made.
pub fn blame_receipts<W: Sink, S: Alter + Drop, P: StoreFiles<S> + Drop>(
    alloc: Global,
    files: P,
    stored: StoredZone<'_>,
    name: Option<&str>,
    writer: &mut W,
) -> (Option<Connection<S>>, Result<(), JobFault>)
    ensures { ReceiptsPrinted
        (stores_of (state S.Store) (P.finds files) (P.refuses files)
        (P.connects files)) stored.entry.store.now stored.entry.origin.now (option_map (λ n. n.now) name.entry) result.0
        (W.contents writer.old) (W.contents writer.new) result.1 (W.failures writer.old) (W.failures writer.new) }
{
    match blame_asked(alloc, stored.origin, name) {
        Ok(asked) => {
            let (path, blank) = (StorePath(stored.store), Blank::new(1));
            let (conn, read) = asked_by::<S, Brand, P, _, _>(
                alloc,
                files,
                path,
                &ReceiptsOf(&asked.origin),
                blank,
            );
            (conn, report(alloc, writer, text_of(alloc, &asked, read)))
        }
        Err(fault) => (None, Err(write_refusal(alloc, writer, fault))),
    }
}

/// Prints the records of a zone of a store with the changes that brought them, or with receipts too.
pub(crate) fn blame_by<W: Sink, S: Alter + Drop, P: StoreFiles<S> + Drop>(
    alloc: Global,
    files: P,
    words: Blame<'_>,
    writer: &mut W,
) -> (Option<Connection<S>>, Result<(), JobFault>)
    ensures { BlameEnds
        (stores_of (state S.Store) (P.finds files) (P.refuses files) (P.connects files)) words.entry.zone.store.now words.entry.zone.origin.now
        (option_map (λ n. n.now) words.entry.name) words.entry.form result.0 (W.contents writer.old) (W.contents writer.new) result.1
        (W.failures writer.old) (W.failures writer.new) }
{
    match words.form {
        BlameForm::Changes => blame(alloc, files, words.zone, words.name, writer),
        BlameForm::Receipts => blame_receipts(alloc, files, words.zone, words.name, writer),
    }
}

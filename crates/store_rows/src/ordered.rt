//! The rows of whole tables, read and put in order.

ghost use Rattle.std.specs.Prelude.{◌≡◌, ℤ, List, map, Ok, IfOk, IfErr};
ghost use Rattle.std.specs.List.{AllByRecursion};
ghost use Rattle.std.specs.List.Sorted.{IsPermutation, IsSorted};
ghost use Rattle.dns_names.specs.Labels.{IsName};
ghost use Rattle.dns_names.specs.Order.{canonical_cmp};
ghost use Rattle.dns_names.specs.Spelling.{name_text};
ghost use Rattle.office_model.specs.States.{State};
ghost use Rattle.store_sql.specs.Rows.{RowsOf};
ghost use Rattle.store_rows.specs.declared.ordered.KeptReceipt.{KeptReceipt as KeptOf};
ghost use Rattle.store_rows.specs.Contents.{AreOfState};
ghost use Rattle.store_rows.specs.Listed.{AreOriginsOf, AreReceiptsOf, kept_order};
ghost use Rattle.store_rows.specs.RowFaults.{Answers, Reads, Refuses};
ghost use Rattle.store_rows.specs.RowReading.{each_read, kept_in};
ghost use Rattle.store_rows.specs.Checks.{IsOriginText, row_of_record, IsZoneRecord, IsZoneRecordRow, zone_record_order, IsReceiptRow, row_key, receipt_key_order};

use crate::ascending::{Ordered, sorted};
use crate::columns::{identifier_in, read_origin};
use crate::receipt_reader::ReceiptReader;
use crate::receipts::stored_receipt;
use crate::record_reader::RecordReader;
use crate::row_fault::RowFault;
use dns_data::{Record, record_order};
use dns_names::Name;
use grant_policy::Identifier;
use office_model::Receipt;
use std::alloc::{AllocError, Global};
use std::cmp::Ordering;
use store_sql::{ReceiptRow, RecordRow, ZoneRow};

/// A record of the zone of an origin, as a row has it.
#[derive(Drop)]
pub struct ZoneRecord {
    /// The origin of the zone.
    pub origin: Name,
    /// The record.
    pub rr: Record,
}

/// The caller and the identifier under which a receipt is kept.
#[derive(Drop)]
pub(crate) struct ReceiptKey {
    pub(crate) caller: Identifier,
    pub(crate) id: Identifier,
}

/// A receipt, with the caller and the identifier under which it is kept.
#[derive(Drop)]
pub struct KeptReceipt {
    /// Who sent the update.
    pub caller: Identifier,
    /// The identifier that the caller gave it.
    pub id: Identifier,
    /// The update, the origin of its zone, and the reply.
    pub receipt: Receipt,
}

/// The origin of each row.
fn all_origins(alloc: Global, rows: &[ZoneRow]) -> Result<Vec<Name>, RowFault>
    ensures found { IfOk result (λ os. (map name_text os.items ≡ rows.now) × AllByRecursion IsName os.items) }
    ensures only { AllByRecursion IsOriginText rows.now → IfErr result (λ e. e ≡ RowFault.NoMemory) }
{
    let mut origins = Vec::with_capacity(alloc, rows.len())?;
    for row in rows {
        origins.push(read_origin(alloc, row.origin.as_str())?)?;
    }
    Ok(origins)
}

/// The origins of zones, in canonical order (RFC 4034 section 6.1). The only error is out of memory.
pub fn sorted_origins(mut origins: Vec<Name>) -> Result<Vec<Name>, AllocError>
    requires { AllByRecursion IsName origins.items }
    ensures found { IfOk result (λ os. IsPermutation origins.items os.items × AllByRecursion IsName os.items × IsSorted canonical_cmp os.items) }
    // The origins of the zones of a state, in any order, are those of the state.
    ensures held { (version : ℤ) (all : RowsOf) (s : State) → AreOfState version all s → IsPermutation all.zones (map name_text origins.items)
        → IfOk result (λ os. AreOriginsOf s os.items) }
{
    origins.sort_by(|first, second| first.cmp(second))?;
    Ok(origins)
}

/// The origins of rows of `zones`, in canonical order (RFC 4034 section 6.1).
pub fn origins(alloc: Global, rows: &[ZoneRow]) -> Result<Vec<Name>, RowFault>
    ensures found { IfOk result (λ os. IsPermutation (map name_text os.items) rows.now × AllByRecursion IsName os.items × IsSorted canonical_cmp os.items) }
    ensures only { AllByRecursion IsOriginText rows.now → IfErr result (λ e. e ≡ RowFault.NoMemory) }
    // The rows of a state, in any order, are read as the origins of its zones, unless memory runs out.
    ensures held { (version : ℤ) (all : RowsOf) (s : State) → AreOfState version all s → IsPermutation all.zones rows.now
        → Answers (λ os. AreOriginsOf s os.items) result }
{
    let origins = all_origins(alloc, rows)?;
    Ok(sorted_origins(origins)?)
}

/// The record of each row.
fn each_record(alloc: Global, rows: &[RecordRow]) -> Result<Vec<ZoneRecord>, RowFault>
    ensures found { IfOk result (λ rs. (map row_of_record rs.items ≡ rows.now) × AllByRecursion IsZoneRecord rs.items) }
    ensures only { AllByRecursion IsZoneRecordRow rows.now → IfErr result (λ e. e ≡ RowFault.NoMemory) }
{
    let mut reader = RecordReader::new();
    records_by(alloc, &mut reader, rows)
}

/// `each_record` with a given reader.
fn records_by(
    alloc: Global,
    reader: &mut RecordReader,
    rows: &[RecordRow],
) -> Result<Vec<ZoneRecord>, RowFault>
    ensures found { IfOk result (λ rs. (map row_of_record rs.items ≡ rows.now) × AllByRecursion IsZoneRecord rs.items) }
    ensures only { AllByRecursion IsZoneRecordRow rows.now → IfErr result (λ e. e ≡ RowFault.NoMemory) }
{
    let mut records = Vec::with_capacity(alloc, rows.len())?;
    for row in rows {
        records.push(reader.read_row(alloc, row)?)?;
    }
    Ok(records)
}

/// By origin, and then in record order.
fn zone_record_order(first: &ZoneRecord, second: &ZoneRecord) -> Ordering
    ensures { result ≡ zone_record_order first.now second.now }
{
    match first.origin.cmp(&second.origin) {
        Ordering::Equal => record_order(&first.rr, &second.rr),
        order => order,
    }
}

impl Ordered for ZoneRecord {
    ghost use Rattle.store_rows.specs.Checks.{zone_record_order, zone_record_total};

    ghost compare = { zone_record_order };

    fn compare(&self, other: &ZoneRecord) -> Ordering {
        zone_record_order(self, other)
    }

    ghost total = { zone_record_total };
}

/// The records of rows of `records`, by origin, and then in record order. A row that is that of no record of a zone is `BadRow`.
pub fn records(alloc: Global, rows: &[RecordRow]) -> Result<Vec<ZoneRecord>, RowFault>
    ensures found { IfOk result
        (λ rs. IsPermutation (map row_of_record rs.items) rows.now × AllByRecursion IsZoneRecord rs.items × IsSorted zone_record_order rs.items) }
    ensures only { AllByRecursion IsZoneRecordRow rows.now → IfErr result (λ e. e ≡ RowFault.NoMemory) }
{
    let records = each_record(alloc, rows)?;
    Ok(sorted_records(records)?)
}

/// Records of zones, by origin, and then in record order. The only error is out of memory.
pub(crate) fn sorted_records(records: Vec<ZoneRecord>) -> Result<Vec<ZoneRecord>, AllocError>
    ensures { IfOk result (λ rs. IsPermutation records.items rs.items × IsSorted zone_record_order rs.items) }
{
    sorted(records)
}

/// Under what the receipt of each row is kept. A row goes as soon as it is read.
fn receipt_keys(alloc: Global, rows: Vec<ReceiptRow>) -> Result<Vec<ReceiptKey>, RowFault>
    ensures found { IfOk result (λ ks. (ks.items ≡ map row_key rows.items) × AllByRecursion IsReceiptRow rows.items) }
    ensures only { AllByRecursion IsReceiptRow rows.items → IfErr result (λ e. e ≡ RowFault.NoMemory) }
{
    let mut reader = ReceiptReader::new();
    receipt_keys_by(alloc, &mut reader, rows)
}

/// `receipt_keys` with a given reader.
fn receipt_keys_by(
    alloc: Global,
    reader: &mut ReceiptReader,
    rows: Vec<ReceiptRow>,
) -> Result<Vec<ReceiptKey>, RowFault>
    ensures found { IfOk result (λ ks. (ks.items ≡ map row_key rows.items) × AllByRecursion IsReceiptRow rows.items) }
    ensures only { AllByRecursion IsReceiptRow rows.items → IfErr result (λ e. e ≡ RowFault.NoMemory) }
{
    let mut keys = Vec::with_capacity(alloc, rows.len())?;
    for row in rows {
        let (caller, id, _receipt) = reader.read_row(alloc, &row)?;
        keys.push(ReceiptKey { caller, id })?;
    }
    Ok(keys)
}

/// By caller, and then by identifier.
fn receipt_key_order(first: &ReceiptKey, second: &ReceiptKey) -> Ordering
    ensures { result ≡ receipt_key_order first.now second.now }
{
    first
        .caller
        .cmp(&second.caller)
        .then(first.id.cmp(&second.id))
}

impl Ordered for ReceiptKey {
    ghost use Rattle.store_rows.specs.Checks.{receipt_key_order, receipt_key_total};

    ghost compare = { receipt_key_order };

    fn compare(&self, other: &ReceiptKey) -> Ordering {
        receipt_key_order(self, other)
    }

    ghost total = { receipt_key_total };
}

/// Under what the receipts of rows of `receipts` are kept, by caller, and then by identifier. A row that is that of no receipt is
/// `BadRow`. Each goes as soon as it is read.
pub(crate) fn receipts(alloc: Global, rows: Vec<ReceiptRow>) -> Result<Vec<ReceiptKey>, RowFault>
    ensures found { IfOk result
        (λ ks. IsPermutation (map row_key rows.items) ks.items × AllByRecursion IsReceiptRow rows.items × IsSorted receipt_key_order ks.items) }
    ensures only { AllByRecursion IsReceiptRow rows.items → IfErr result (λ e. e ≡ RowFault.NoMemory) }
{
    let keys = receipt_keys(alloc, rows)?;
    Ok(sorted(keys)?)
}

/// The receipt of a row that is known to be that of a receipt, with what it is kept under. Its spelling is not looked at.
fn kept_in(alloc: Global, row: &ReceiptRow) -> Result<KeptReceipt, RowFault>
    ensures { Reads (λ kept. kept) result (kept_in row.now) }
{
    let caller = identifier_in(alloc, row.caller.as_bytes())?;
    let id = identifier_in(alloc, row.id.as_bytes())?;
    let receipt = stored_receipt(alloc, row)?;
    Ok(KeptReceipt {
        caller,
        id,
        receipt,
    })
}

/// The receipt of each row.
fn all_kept(alloc: Global, rows: &[ReceiptRow]) -> Result<Vec<KeptReceipt>, RowFault>
    ensures { Reads (λ kept. kept.items) result (each_read kept_in rows.now) }
{
    let mut kept = Vec::with_capacity(alloc, rows.len())?;
    for row in rows {
        kept.push(kept_in(alloc, row)?)?;
    }
    Ok(kept)
}

/// By caller, and then by identifier.
fn kept_order(first: &KeptReceipt, second: &KeptReceipt) -> Ordering
    ensures { result ≡ kept_order first.now second.now }
{
    first
        .caller
        .cmp(&second.caller)
        .then(first.id.cmp(&second.id))
}

/// The receipts of rows of `receipts`, by caller, and then by identifier. A row that is not read is `BadRow`.
pub fn kept_receipts(alloc: Global, rows: &[ReceiptRow]) -> Result<Vec<KeptReceipt>, RowFault>
    // They are those of all rows, in order.
    ensures found { IfOk result
        (λ kept. (ks : List KeptOf) × (each_read kept_in rows.now ≡ Ok ks) × IsPermutation ks kept.items × IsSorted kept_order kept.items) }
    ensures only { IfErr result (λ e. Refuses e (each_read kept_in rows.now)) }
    // The rows of a state, in any order, are read as its receipts, unless memory runs out.
    ensures held { (version : ℤ) (all : RowsOf) (s : State) → AreOfState version all s → IsPermutation all.receipts rows.now
        → Answers (λ kept. AreReceiptsOf s kept.items) result }
{
    let mut kept = all_kept(alloc, rows)?;
    kept.sort_unstable_by(|first, second| kept_order(first, second));
    Ok(kept)
}

//! The rows of the tables, as their columns have them: texts, numbers and keys, which nobody has read yet.

use std::marker::Model;

/// A row of `zones`: the origin of a zone.
#[derive(Drop)]
pub struct ZoneRow {
    pub origin: String,
}

impl Model for ZoneRow {
    ghost use Rattle.std.specs.Prelude.{ℕ, List, string_bytes};
    ghost use Rattle.std.specs.Coded.{coded_list, coded_ℕ};

    ghost Value = { List ℕ };

    ghost coded = { coded_list coded_ℕ };

    ghost view = { λ r. string_bytes r.origin };
}

/// A row of `records`: a record of the zone of an origin.
#[derive(Drop)]
pub struct RecordRow {
    pub origin: String,
    pub owner: String,
    /// The number of the type.
    pub record_type: i64,
    pub rdata: String,
    /// In seconds.
    pub ttl: i64,
    /// The key of the owner, by which names are ordered.
    pub owner_key: Vec<u8>,
}

impl Model for RecordRow {
    ghost use Rattle.std.specs.Prelude.{string_bytes};
    ghost use Rattle.store_sql.specs.Rows.{RecordRowOf, record_row_code};

    ghost Value = { RecordRowOf };

    ghost coded = { record_row_code };

    ghost view = { λ r. record { origin = string_bytes r.origin; owner = string_bytes r.owner; record_type = r.record_type; rdata = string_bytes r.rdata; ttl = r.ttl; owner_key = r.owner_key.items } };
}

/// A row of `receipts`: the receipt of a caller under an identifier.
#[derive(Drop)]
pub struct ReceiptRow {
    pub caller: String,
    pub id: String,
    pub origin: String,
    /// The item lines of the update.
    pub request: String,
    pub reply: String,
}

impl Model for ReceiptRow {
    ghost use Rattle.std.specs.Prelude.{string_bytes};
    ghost use Rattle.store_sql.specs.Rows.{ReceiptRowOf, receipt_row_code};

    ghost Value = { ReceiptRowOf };

    ghost coded = { receipt_row_code };

    ghost view = { λ r. record { caller = string_bytes r.caller; id = string_bytes r.id; origin = string_bytes r.origin; request = string_bytes r.request; reply = string_bytes r.reply } };
}

/// A row of `changes`: a record that a change of a zone took away or brought.
#[derive(Drop)]
pub struct ChangeRow {
    pub origin: String,
    /// The number of the change among those of its zone.
    pub number: i64,
    /// The side of the change: 0 for a record that went, 1 for one that came.
    pub side: i64,
    pub owner: String,
    /// The number of the type.
    pub record_type: i64,
    pub rdata: String,
    /// In seconds.
    pub ttl: i64,
}

impl Model for ChangeRow {
    ghost use Rattle.std.specs.Prelude.{string_bytes};
    ghost use Rattle.store_sql.specs.Rows.{ChangeRowOf, change_row_code};

    ghost Value = { ChangeRowOf };

    ghost coded = { change_row_code };

    ghost view = { λ r. record { origin = string_bytes r.origin; number = r.number; side = r.side; owner = string_bytes r.owner; record_type = r.record_type; rdata = string_bytes r.rdata; ttl = r.ttl } };
}

/// What is written at once: rows of `records` that go, and rows of each table that come; and another version, if there is one.
#[derive(Drop)]
pub struct Batch {
    pub version: Option<i64>,
    /// Origins.
    pub zones: Vec<String>,
    /// Only their keys count: origin, owner, type and data.
    pub removed: Vec<RecordRow>,
    pub added: Vec<RecordRow>,
    pub changes: Vec<ChangeRow>,
    pub receipts: Vec<ReceiptRow>,
}

impl Model for Batch {
    ghost use Rattle.std.specs.Prelude.{map, string_bytes};
    ghost use Rattle.store_sql.specs.Rows.{BatchOf, batch_code};

    ghost Value = { BatchOf };

    ghost coded = { batch_code };

    ghost view = { λ w. record { version = w.version; zones = map string_bytes w.zones.items; removed = w.removed.items; added = w.added.items; changes = w.changes.items; receipts = w.receipts.items } };
}

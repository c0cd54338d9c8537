//! Whether a schema is that of the tables.

ghost use Rattle.std.specs.Prelude.{◌≡◌, ◌<◌, ◌↔◌, [], ◌∷◌, map, true};
ghost use Rattle.sqlite.specs.Held.{state};
ghost use Rattle.sqlite.specs.State.{IsLive};
ghost use Rattle.sqlite_value.specs.Keys.{plain};
ghost use Rattle.store_sql.specs.Tables.{strict, keyed, keys_over, IsBare, meta, zones, records, receipts, changes, key_index, records_by_key, receipts_key, changes_key, later_indexes, office_schema, IsOffice, no_schema};

use crate::layout::Layout;
use sqlite::{Alter, Connection};
use sqlite_schema::code::Terms;
use sqlite_schema::schema::{Column, Index, Kind, Schema, Table};
use sqlite_value::keys::{Collation, Order};
use sqlite_value::value::Value;

/// Whether a column has this name and this type, is of a STRICT table, and is NOT NULL.
fn is_strict(column: &Column, name: &[u8], kind: Kind) -> bool
    ensures { (result ≡ true) ↔ (column.now ≡ strict name.now kind) }
{
    if !matches!(column.default, Value::Null) {
        return false;
    }
    column.name.as_slice() == name
        && column.kind == kind
        && column.is_strict
        && column.not_null
        && column.collation == Collation::Binary
}

fn are_none(terms: &Terms) -> bool
    ensures { (result ≡ true) ↔ (terms.now ≡ []) }
{
    terms.roots.is_empty()
}

fn is_only_key(unique: &[usize], order: Order, key: &[usize]) -> bool
    ensures { (result ≡ true) ↔ ((unique.now ∷ [] ≡ keys_over key.now) × (order ∷ [] ≡ map (λ _. plain) (keys_over key.now))) }
{
    if key.is_empty() {
        return false;
    }
    if unique != key {
        return false;
    }
    order.digits == 0
}

/// Whether the only key of a table is its primary key, in the order of the octets; a table without one has no keys.
fn are_keys(table: &Table, key: &[usize]) -> bool
    ensures { (result ≡ true) ↔ ((table.now.uniques ≡ keys_over key.now) × (table.now.orders ≡ map (λ _. plain) (keys_over key.now))) }
{
    match (table.uniques.as_slice(), table.orders.as_slice()) {
        ([], []) => key.is_empty(),
        ([unique], [order]) => is_only_key(unique.as_slice(), *order, key),
        _ => false,
    }
}

/// Whether a table has no rule but its types and its one key.
fn is_bare(table: &Table) -> bool
    ensures { (result ≡ true) ↔ IsBare table.now }
{
    table.key.is_none()
        && are_none(&table.checks)
        && table.references.is_empty()
        && table.computed.is_empty()
        && table.stamps.places.is_empty()
        && are_none(&table.stamps.terms)
        && table.stamps.formats.is_empty()
        && !table.is_counted
}

/// Whether a table is that of a name and a tree with one key, whatever its columns are.
fn is_table(table: &Table, name: &[u8], tree: u32, key: &[usize]) -> bool
    ensures { (result ≡ true) ↔ (table.now ≡ keyed name.now tree table.now.columns key.now) }
{
    if table.name.as_slice() != name {
        return false;
    }
    if table.tree != tree {
        return false;
    }
    if table.primary.as_slice() != key {
        return false;
    }
    if !are_keys(table, key) {
        return false;
    }
    is_bare(table)
}

fn is_meta(table: &Table) -> bool
    ensures { (result ≡ true) ↔ (table.now ≡ meta) }
{
    let [version] = table.columns.as_slice() else {
        return false;
    };
    is_table(table, b"meta", 0, &[]) && is_strict(version, b"version", Kind::Integer)
}

fn is_zones(table: &Table) -> bool
    ensures { (result ≡ true) ↔ (table.now ≡ zones) }
{
    let [origin] = table.columns.as_slice() else {
        return false;
    };
    is_table(table, b"zones", 1, &[1]) && is_strict(origin, b"origin", Kind::Text)
}

fn is_records(table: &Table) -> bool
    ensures { (result ≡ true) ↔ (table.now ≡ records) }
{
    let [origin, owner, number, words, ttl, owner_key] = table.columns.as_slice() else {
        return false;
    };
    if !is_table(table, b"records", 3, &[1, 2, 3, 4]) {
        return false;
    }
    if !is_strict(origin, b"origin", Kind::Text) {
        return false;
    }
    if !is_strict(owner, b"owner", Kind::Text) {
        return false;
    }
    if !is_strict(number, b"type", Kind::Integer) {
        return false;
    }
    if !is_strict(words, b"data", Kind::Text) {
        return false;
    }
    if !is_strict(ttl, b"ttl", Kind::Integer) {
        return false;
    }
    is_strict(owner_key, b"owner_key", Kind::Blob)
}

fn is_receipts(table: &Table, layout: Layout) -> bool
    ensures { (result ≡ true) ↔ (table.now ≡ receipts layout) }
{
    let [caller, id, origin, request, reply] = table.columns.as_slice() else {
        return false;
    };
    if !is_table(table, b"receipts", layout.receipts(), &[1, 2]) {
        return false;
    }
    if !is_strict(caller, b"caller", Kind::Text) {
        return false;
    }
    if !is_strict(id, b"id", Kind::Text) {
        return false;
    }
    if !is_strict(origin, b"origin", Kind::Text) {
        return false;
    }
    if !is_strict(request, b"request", Kind::Text) {
        return false;
    }
    is_strict(reply, b"reply", Kind::Text)
}

fn is_changes(table: &Table, layout: Layout) -> bool
    ensures { (result ≡ true) ↔ (table.now ≡ changes layout) }
{
    let [origin, number, side, owner, kind, words, ttl] = table.columns.as_slice() else {
        return false;
    };
    if !is_table(table, b"changes", layout.changes(), &[1, 2, 3, 4, 5, 6]) {
        return false;
    }
    if !is_strict(origin, b"origin", Kind::Text) {
        return false;
    }
    if !is_strict(number, b"number", Kind::Integer) {
        return false;
    }
    if !is_strict(side, b"side", Kind::Integer) {
        return false;
    }
    if !is_strict(owner, b"owner", Kind::Text) {
        return false;
    }
    if !is_strict(kind, b"type", Kind::Integer) {
        return false;
    }
    if !is_strict(words, b"data", Kind::Text) {
        return false;
    }
    is_strict(ttl, b"ttl", Kind::Integer)
}

/// Whether an index is that of a name, a tree, a table and columns, in the order of the octets.
fn is_index(
    index: &Index,
    name: &[u8],
    tree: u32,
    table: u32,
    columns: &[usize],
    is_unique: bool,
) -> bool
    ensures { (result ≡ true)
        ↔ (index.now ≡ record { name = name.now; tree = tree; table = table; columns = columns.now; order = plain; is_unique = is_unique }) }
{
    index.name.as_slice() == name
        && index.tree == tree
        && index.table == table
        && index.columns.as_slice() == columns
        && index.order.digits == 0
        && index.is_unique == is_unique
}

/// Whether an index is that of the key of a table, which has the next tree.
fn is_key(index: &Index, name: &[u8], table: u32, key: &[usize]) -> bool
    requires { table < 9 }
    ensures { (result ≡ true) ↔ (index.now ≡ key_index name.now table key.now) }
{
    is_index(index, name, table + 1, table, key, true)
}

fn is_receipts_key(index: &Index, layout: Layout) -> bool
    ensures { (result ≡ true) ↔ (index.now ≡ receipts_key layout) }
{
    is_key(
        index,
        b"sqlite_autoindex_receipts_1",
        layout.receipts(),
        &[1, 2],
    )
}

fn is_changes_key(index: &Index, layout: Layout) -> bool
    ensures { (result ≡ true) ↔ (index.now ≡ changes_key layout) }
{
    is_key(
        index,
        b"sqlite_autoindex_changes_1",
        layout.changes(),
        &[1, 2, 3, 4, 5, 6],
    )
}

/// Whether an index is that by which records are found by the key of their owner.
fn is_records_by_key(index: &Index, layout: Layout) -> bool
    ensures { (result ≡ true) ↔ (index.now ≡ records_by_key layout) }
{
    is_index(
        index,
        b"records_by_key",
        layout.records_by_key(),
        3,
        &[1, 6],
        false,
    )
}

/// Whether these are the indexes after those of the keys of `zones` and `records`.
fn are_later(third: &Index, fourth: &Index, fifth: &Index, layout: Layout) -> bool
    ensures { (result ≡ true) ↔ (third.now ∷ fourth.now ∷ fifth.now ∷ [] ≡ later_indexes layout) }
{
    match layout {
        Layout::IndexAfterRecords => {
            is_records_by_key(third, layout)
                && is_receipts_key(fourth, layout)
                && is_changes_key(fifth, layout)
        }
        Layout::IndexLast => {
            is_receipts_key(third, layout)
                && is_changes_key(fourth, layout)
                && is_records_by_key(fifth, layout)
        }
    }
}

/// Whether these are the indexes of the four keys, and the one by which records are found by the key of their owner.
fn are_indexes(indexes: &[Index], layout: Layout) -> bool
    ensures { (result ≡ true) ↔ (indexes.now ≡ (office_schema layout).indexes) }
{
    let [of_zones, of_records, third, fourth, fifth] = indexes else {
        return false;
    };
    if !is_key(of_zones, b"sqlite_autoindex_zones_1", 1, &[1]) {
        return false;
    }
    if !is_key(of_records, b"sqlite_autoindex_records_1", 3, &[1, 2, 3, 4]) {
        return false;
    }
    are_later(third, fourth, fifth, layout)
}

/// Whether a schema is that of the tables in a layout.
fn is_laid_out(schema: &Schema, layout: Layout) -> bool
    ensures { (result ≡ true) ↔ (schema.now ≡ office_schema layout) }
{
    let [meta, zones, records, receipts, changes] = schema.tables.as_slice() else {
        return false;
    };
    if !is_meta(meta) {
        return false;
    }
    if !is_zones(zones) {
        return false;
    }
    if !is_records(records) {
        return false;
    }
    if !is_receipts(receipts, layout) {
        return false;
    }
    if !is_changes(changes, layout) {
        return false;
    }
    if !are_indexes(schema.indexes.as_slice(), layout) {
        return false;
    }
    schema.views.is_empty()
}

fn is_office(schema: &Schema) -> bool
    ensures { (result ≡ true) ↔ IsOffice schema.now }
{
    is_laid_out(schema, Layout::IndexAfterRecords) || is_laid_out(schema, Layout::IndexLast)
}

/// Whether the connection shows the tables and nothing else, in either layout.
pub fn has_tables<S: Alter>(conn: &Connection<S>) -> bool
    ensures known { (result ≡ true) ↔ IsOffice (state S.Store conn.now).now.schema }
    // Its rows obey it.
    ensures live { IsLive (state S.Store conn.now) }
{
    is_office(conn.schema())
}

/// Whether the connection shows no table, index or view.
pub fn has_no_tables<S: Alter>(conn: &Connection<S>) -> bool
    ensures { (result ≡ true) ↔ ((state S.Store conn.now).now.schema ≡ no_schema) }
{
    let schema = conn.schema();
    schema.tables.is_empty() && schema.indexes.is_empty() && schema.views.is_empty()
}

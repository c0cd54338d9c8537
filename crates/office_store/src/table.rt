//! The table in SQLite.
#![tactic(auto, using(crate::proofs::ShelfLemmas::kept))]

ghost use Rattle.std.specs.Prelude.{pos, ◌≡◌, ◌≢◌, ◌↔◌, ◌⊎◌, ◌<◌, false, None, IfOk, IfErr, IsErrAnd, IsTrue, OnErr, map, option_map};
ghost use Rattle.std.proofs.Props.{props};
ghost use Rattle.sqlite.specs.Held.{state};
ghost use Rattle.sqlite.specs.State.{HasCleanDisk};
ghost use Rattle.zone_core.specs.Changes.{change_in};
ghost use Rattle.office_model.specs.States.{State, zone_at, changes_at as changes_held};
ghost use Rattle.office_model.specs.Tables.{CountsFault};
ghost use Rattle.store_sql.specs.Holds.{Keeps, Leaves};
ghost use Rattle.store_sql.specs.Tables.{no_schema, IsOffice};
ghost use Rattle.store_rows.specs.Contents.{ContentOf};
ghost use Rattle.store_rows.specs.Batches.{nothing_held};
ghost use Rattle.store_rows.specs.Listed.{AreOriginsOf, AreReceiptsOf};
ghost use Rattle.store_rows.specs.Removals.{without_zone};
ghost use Rattle.store_faults.specs.declared.store_fault.StoreFault.TheVariants.{BadRow, WrongVersion};
ghost use Rattle.store_faults.specs.StoreFaults.{CountsFailure, CountsCall, Gives, IsFailure, IsOfRows};
ghost use Rattle.office_store.specs.Holds.{HoldsState, HasNone, HasVersion, IsOfVersion, IsStateIn, LeavesStates};
ghost use Rattle.store_cache.specs.Cache.{cached_in};
ghost use Rattle.store_cache.specs.Shelf.{on_any};
ghost use Rattle.office_store.specs.Cache.{FitEach, FitsCache};
ghost use Rattle.office_store.specs.History.{FitsHistory, RememberEach};
ghost use Rattle.office_store.specs.Migration.{HoldsOld, IsMigratedFrom, IsMigrated};
ghost use Rattle.office_store.specs.Queries.{Asked, AsksOnly, Only};
ghost use Rattle.office_store.specs.Turns.{Turns};
ghost use Rattle.office_store.specs.Zones.{exported, if_free, if_later, imported, removed, replaced, with_imported, with_replaced};

use crate::cache::{
    SubtreeRead, cached_or_held, cached_part, cached_subtree, commit_cached, export_cached,
};
use crate::migration::migrate;
use crate::opening::{Checked, Refused, check_state, make};
use crate::queries::check_open;
use crate::reads::{changes_at, changes_behind, origins, receipt_at, receipts, zone_at};
use crate::zones::{import, put_zone, remove, replace, take_place};
use dns_data::Record;
use dns_names::Name;
use grant_policy::{Grants, Identifier};
use office_model::{Addition, Ahead, Passed, Receipt, TableFault, ZoneTable};
use sqlite::{Alter, Connection};
use std::alloc::Global;
use std::sync::ledger::{Blank, Book, Ledger, Share};
use store_cache::{
    CachedZone, Shelf, ZoneHistory, ahead_in, cached_of, forget_on, passed_in, remember, turn_on,
    turn_to,
};
use store_faults::StoreFault;
use store_rows::KeptReceipt;
use zone_core::{Change, Zone};

/// Zones with their changes, and receipts, in the tables of a database. It counts the failures of its store by a ledger, and caches
/// zones that were read as a whole, at first the largest, which follow the commits; the one of the last call until a call fails, and all
/// until a whole zone is written or taken out. It remembers what the changes touch of zones whose first changes were read, at first of
/// the one that has most, until a whole zone is written or taken out, and why its last call of the machine failed that did. What is
/// cached and remembered of other zones than that of the last call takes a bounded amount of memory: the zones of the calls longest ago
/// go.
#[derive(Drop)]
pub struct SqlTable<S: Alter + Drop, L: Ledger> {
    conn: Connection<S>,
    book: Book<L>,
    share: Share<L>,
    cache: Option<CachedZone>,
    zones: Option<Shelf<CachedZone>>,
    subtree_read: SubtreeRead,
    history: Option<ZoneHistory>,
    histories: Option<Shelf<ZoneHistory>>,
    /// How many octets of memory may be taken for other zones than that of the last call.
    memory: usize,
    fault: Option<StoreFault>,
    ghost counts: { 0 < share.parts },
    ghost fits: { FitsCache (state S.Store conn) (cached_in cache) },
    ghost fit: { FitEach (state S.Store conn) (on_any zones) } by { Prim.hlevel props },
    ghost remembers: { FitsHistory (state S.Store conn) history },
    ghost remember: { RememberEach (state S.Store conn) (on_any histories) } by { Prim.hlevel props },
}

/// How many octets of memory may be taken for other zones than that of the last call, if nothing else is said.
const MEMORY: usize = 256 << 20;

impl<S: Alter + Drop, L: Ledger> SqlTable<S, L> {
    /// The table over a connection that holds a state, of which a zone may be cached, and the changes of one remembered.
    fn over(
        conn: Connection<S>,
        blank: Blank,
        cache: Option<CachedZone>,
        history: Option<ZoneHistory>,
    ) -> SqlTable<S, L>
        requires name { blank.name ≡ L.name }
        requires parts { blank.parts ≡ L.parts }
        requires some { 0 < blank.parts }
        requires fits { FitsCache (state S.Store conn) (cached_in cache) }
        requires remembers { FitsHistory (state S.Store conn) history }
        ensures conn { result.conn ≡ conn }
        ensures none { result.book.total ≡ 0 }
    {
        let (book, share) = blank.open::<L>();
        SqlTable {
            conn,
            book,
            share,
            cache,
            zones: None,
            subtree_read: SubtreeRead::Rows,
            history,
            histories: None,
            memory: MEMORY,
            fault: None,
        }
    }

    /// Drops the cache after a failed call, and counts the fault, if it is a failure of the store.
    fn count(&mut self, fault: StoreFault) -> StoreFault
        ensures fault { result ≡ fault }
        ensures conn { self.new.conn ≡ self.old.conn }
        ensures counts { CountsFailure self.old.book.total self.new.book.total fault }
    {
        self.cache = None;
        if let StoreFault::Store(_) = fault {
            self.book.add(&mut self.share, 1);
        }
        fault
    }

    /// Drops the cache after a failed call of the machine, notes why it failed, and counts it, unless memory ran out.
    fn fail(&mut self, fault: StoreFault) -> TableFault
        ensures conn { self.new.conn ≡ self.old.conn }
        ensures counts { CountsFault self.old.book.total self.new.book.total result }
    {
        self.cache = None;
        self.fault = Some(fault);
        match fault {
            StoreFault::NoMemory => TableFault::NoMemory,
            _ => {
                self.book.add(&mut self.share, 1);
                TableFault::Store
            }
        }
    }

    /// Turns to the zone of an origin: what is cached of it is at hand then, if it is.
    fn turn_cache(&mut self, alloc: Global, origin: &Name)
        ensures conn { self.new.conn ≡ self.old.conn }
        ensures counts { self.new.book.total ≡ self.old.book.total }
    {
        // three quarters are for records
        let room = self.memory / 4 * 3;
        turn_to(alloc, &mut self.cache, &mut self.zones, room, origin);
    }

    /// The same of what is remembered of its changes.
    fn turn_history(&mut self, alloc: Global, origin: &Name)
        ensures conn { self.new.conn ≡ self.old.conn }
        ensures counts { self.new.book.total ≡ self.old.book.total }
    {
        let room = self.memory / 4;
        turn_to(alloc, &mut self.history, &mut self.histories, room, origin);
    }

    /// Makes the tables, without zones and receipts, in a database that has none, in one transaction. No transaction is open. The
    /// count of failures begins at none.
    ///
    /// `WrongVersion` comes exactly where there are tables, indexes or views already; `Store` where the store fails, and
    /// `NoMemory` where memory runs out, and then no table is made.
    pub fn create(conn: Connection<S>, blank: Blank) -> Result<SqlTable<S, L>, Refused<S>>
        requires alone { conn.in_transaction ≡ false }
        requires name { blank.name ≡ L.name }
        requires parts { blank.parts ≡ L.parts }
        requires some { 0 < blank.parts }
        // The table holds nothing, and a crash leaves that.
        ensures made { IfOk result (λ table. HoldsState (state S.Store table.conn) nothing_held) }
        ensures kept { IfOk result (λ table. LeavesStates (state S.Store table.conn) nothing_held nothing_held) }
        ensures honest { IfOk result (λ table. HasCleanDisk (state S.Store table.conn) → HasCleanDisk (state S.Store conn)) }
        ensures none { IfOk result (λ table. table.book.total ≡ 0) }
        // When each refusal comes.
        ensures wrong { IsErrAnd result (λ refused. refused.fault ≡ WrongVersion) ↔ ((state S.Store conn).now.schema ≢ no_schema) }
        ensures named { IfErr result (λ refused. (refused.fault ≡ WrongVersion) ⊎ IsFailure refused.fault) }
        // Where there are tables nothing was done; else no table was made, and a crash leaves what it left before or the tables.
        ensures same { IfErr result (λ refused. refused.fault ≡ WrongVersion → refused.conn ≡ conn) }
        ensures failed { IfErr result (λ refused. refused.fault ≢ WrongVersion → HasNone (state S.Store refused.conn)) }
        ensures crash { IfErr result (λ refused. Leaves (state S.Store refused.conn) (λ db. (state S.Store conn).may_leave db ⊎ IsStateIn db nothing_held)) }
        ensures ended { IfErr result (λ refused. refused.conn.in_transaction ≡ false) }
        ensures blank { IfErr result (λ refused. refused.blank ≡ blank) }
    {
        let mut conn = conn;
        match make(&mut conn) {
            Ok(()) => Ok(SqlTable::over(conn, blank, None, None)),
            Err(fault) => Err(Refused { fault, conn, blank }),
        }
    }

    /// The table over a database that has the tables of this version, with the rows of a state. No transaction is open. The count
    /// of failures begins at none.
    ///
    /// `WrongVersion` comes where the tables are missing or others, or `meta` has not the one row of this version; else `BadRow`
    /// where the rows are not those of a state; `Store` where the store fails, and `NoMemory` where memory runs out.
    pub fn adopt(
        alloc: Global,
        conn: Connection<S>,
        blank: Blank,
    ) -> Result<SqlTable<S, L>, Refused<S>>
        requires alone { conn.in_transaction ≡ false }
        requires name { blank.name ≡ L.name }
        requires parts { blank.parts ≡ L.parts }
        requires some { 0 < blank.parts }
        // The table holds a state, and a crash leaves that.
        ensures found { IfOk result
            (λ table. HasCleanDisk (state S.Store table.conn)
            → (s : State) × HoldsState (state S.Store table.conn) s × LeavesStates (state S.Store table.conn) s s) }
        // It is what was there.
        ensures asked { IfOk result (λ table. Asked (state S.Store conn) (state S.Store table.conn)) }
        ensures only { IfOk result (λ table. HasCleanDisk (state S.Store table.conn) → Only (state S.Store conn) (state S.Store table.conn)) }
        ensures none { IfOk result (λ table. table.book.total ≡ 0) }
        // Over rows that are a state only the store fails or memory runs out; so `BadRow` says that there is no state.
        ensures good { IfErr result
            (λ refused. HasCleanDisk (state S.Store refused.conn) → (s : State) → HoldsState (state S.Store conn) s → IsFailure refused.fault) }
        ensures wrong { IfErr result (λ refused. HasCleanDisk (state S.Store refused.conn) → refused.fault ≡ WrongVersion → ¬ HasVersion (state S.Store conn)) }
        // It comes only over tables of this version.
        ensures bad { IfErr result (λ refused. HasCleanDisk (state S.Store refused.conn) → refused.fault ≡ BadRow → HasVersion (state S.Store conn)) }
        ensures tables { IfErr result (λ refused. refused.fault ≡ BadRow → IsOffice (state S.Store conn).now.schema) }
        ensures named { IfErr result (λ refused. (refused.fault ≡ WrongVersion) ⊎ IsOfRows refused.fault) }
        // After a refusal all is as it was, whatever the tables are, and a crash leaves what was committed.
        ensures same { IfErr result (λ refused. Asked (state S.Store conn) (state S.Store refused.conn)) }
        ensures shown { IfErr result (λ refused. Keeps (state S.Store conn) (state S.Store refused.conn)) }
        ensures left { IfErr result
            (λ refused. IsTrue (state S.Store conn).is_open → Leaves (state S.Store refused.conn) (λ db. db ≡ (state S.Store conn).committed.trees)) }
        ensures ended { IfErr result (λ refused. refused.conn.in_transaction ≡ false) }
        ensures blank { IfErr result (λ refused. refused.blank ≡ blank) }
    {
        let mut conn = conn;
        match check_state(alloc, &mut conn) {
            Ok(Checked { largest, history }) => Ok(SqlTable::over(
                conn,
                blank,
                cached_of(alloc, largest),
                history,
            )),
            Err(fault) => Err(Refused { fault, conn, blank }),
        }
    }

    /// Takes the tables of a database from version 1 to version 2, in one transaction, and tells how many zones that changes. No
    /// transaction is open. In version 1 the records of one owner and type could have different TTLs: each set has its least TTL
    /// then (RFC 2181 section 5.2), and a zone in which that changes something its serial one further (RFC 1982 section 3.1), and
    /// one change more.
    ///
    /// `WrongVersion` comes where the tables are missing or others, or `meta` has not the one row of version 1; else `BadRow`
    /// where the rows are not those of a state, but for the TTLs of one set; `Store` where the store fails, and `NoMemory` where
    /// memory runs out.
    pub fn migrate(alloc: Global, conn: &mut Connection<S>) -> Result<usize, StoreFault>
        requires alone { conn.old.in_transaction ≡ false }
        // The content that was held is held migrated, and a crash leaves that.
        ensures made { HasCleanDisk (state S.Store conn.new) → IfOk result (IsMigrated (state S.Store conn.old) (state S.Store conn.new)) }
        // After a refusal the connection shows what it showed, whatever the tables are; and a crash leaves what it left before, or the
        // content migrated.
        ensures failed { OnErr result (Keeps (state S.Store conn.old) (state S.Store conn.new)) }
        ensures crash { OnErr result
            (Leaves (state S.Store conn.new) (λ db. (state S.Store conn.old).may_leave db ⊎ IsMigratedFrom (state S.Store conn.old) db)) }
        // After `WrongVersion` and `BadRow` it leaves nothing else than before.
        ensures same { (result ≡ Err WrongVersion) ⊎ (result ≡ Err BadRow) → Asked (state S.Store conn.old) (state S.Store conn.new) }
        // Over rows of version 1 only the store fails or memory runs out; so `BadRow` says that they are not such rows.
        ensures good { HasCleanDisk (state S.Store conn.new)
            → IfErr result (λ e. (content : ContentOf) → HoldsOld (state S.Store conn.old) content → IsFailure e) }
        ensures wrong { HasCleanDisk (state S.Store conn.new) → result ≡ Err WrongVersion → ¬ IsOfVersion (pos 1) (state S.Store conn.old) }
        // `BadRow` comes only over tables of version 1.
        ensures bad { HasCleanDisk (state S.Store conn.new) → result ≡ Err BadRow → IsOfVersion (pos 1) (state S.Store conn.old) }
        ensures named { IfErr result (λ e. (e ≡ WrongVersion) ⊎ IsOfRows e) }
        ensures honest { HasCleanDisk (state S.Store conn.new) → HasCleanDisk (state S.Store conn.old) }
        ensures ended { conn.new.in_transaction ≡ false }
    {
        migrate(alloc, conn)
    }

    /// Why the last call of the machine failed that did, if one did.
    pub fn store_fault(&self) -> Option<StoreFault>
        ensures { result ≡ self.now.fault }
    {
        self.fault
    }

    /// Lets other zones than that of the last call take about so many octets of memory from now on, a quarter of them for what changes
    /// touch. What was kept of them goes.
    pub fn limit_memory(&mut self, octets: usize)
        ensures conn { self.new.conn ≡ self.old.conn }
        ensures counts { self.new.book.total ≡ self.old.book.total }
        ensures fault { self.new.fault ≡ self.old.fault }
    {
        self.zones = None;
        self.histories = None;
        self.memory = octets;
    }

    /// The connection, without the count of failures.
    pub fn into_connection(self) -> Connection<S>
        ensures { result ≡ self.conn }
    {
        self.conn
    }

    /// Puts a zone beside the others, in one transaction. No change is appended.
    ///
    /// `ZoneExists` comes exactly where there is a zone of its origin, `Store` where the store fails, and `NoMemory` where memory
    /// runs out.
    pub fn put(&mut self, alloc: Global, zone: &Zone) -> Result<(), StoreFault>
        ensures answer { HasCleanDisk (state S.Store self.new.conn) → (s : State) → HoldsState (state S.Store self.old.conn) s
            → Gives (λ _. zone.now) result (if_free (s.zones zone.now.origin) zone.now) }
        ensures turns { Turns (state S.Store self.old.conn) (state S.Store self.new.conn) result
            (λ s. with_imported s (if_free (s.zones zone.now.origin) zone.now)) }
        ensures counts { CountsCall self.old.book.total self.new.book.total result }
    {
        self.cache = None;
        self.zones = None;
        self.history = None;
        self.histories = None;
        match put_zone(alloc, &mut self.conn, zone) {
            Ok(()) => Ok(()),
            Err(fault) => Err(self.count(fault)),
        }
    }

    /// Puts a zone in the place of the one of its origin, in one transaction, with one change: the records that went and those that
    /// came.
    ///
    /// The refusals, of which the first is answered: `NoZone` exactly where there is no zone of the origin; and `SerialNotGreater`
    /// exactly where its serial is not less than the new one (RFC 1982 section 3.2). `Store` comes where the store fails, and
    /// `NoMemory` where memory runs out.
    pub fn put_in_place(&mut self, alloc: Global, zone: &Zone) -> Result<(), StoreFault>
        ensures answer { HasCleanDisk (state S.Store self.new.conn) → (s : State) → HoldsState (state S.Store self.old.conn) s
            → Gives (λ _. zone.now) result (if_later (s.zones zone.now.origin) zone.now) }
        ensures turns { Turns (state S.Store self.old.conn) (state S.Store self.new.conn) result
            (λ s. with_replaced s (if_later (s.zones zone.now.origin) zone.now)) }
        ensures counts { CountsCall self.old.book.total self.new.book.total result }
    {
        self.cache = None;
        self.zones = None;
        self.history = None;
        self.histories = None;
        match take_place(alloc, &mut self.conn, zone) {
            Ok(()) => Ok(()),
            Err(fault) => Err(self.count(fault)),
        }
    }

    /// Imports the zone of an origin and records, as `Zone::build` makes it, in one transaction. No change is appended.
    ///
    /// The refusals, of which the first is answered: that of `Zone::build`, and `ZoneExists` exactly where there is a zone of the
    /// origin. `Store` comes where the store fails, and `NoMemory` where memory runs out.
    pub fn import(
        &mut self,
        alloc: Global,
        origin: Name,
        records: Vec<Record>,
    ) -> Result<Zone, StoreFault>
        ensures answer { HasCleanDisk (state S.Store self.new.conn) → (s : State) → HoldsState (state S.Store self.old.conn) s
            → Gives (λ zone. zone) result (imported s origin records.items) }
        ensures turns { Turns (state S.Store self.old.conn) (state S.Store self.new.conn) result (λ s. with_imported s (imported s origin records.items)) }
        ensures counts { CountsCall self.old.book.total self.new.book.total result }
    {
        self.cache = None;
        self.zones = None;
        self.history = None;
        self.histories = None;
        match import(alloc, &mut self.conn, origin, records) {
            Ok(zone) => Ok(zone),
            Err(fault) => Err(self.count(fault)),
        }
    }

    /// Puts the zone of an origin and records, as `Zone::build` makes it, in the place of the one that is there, in one
    /// transaction, with one change: the records that went and those that came.
    ///
    /// The refusals, of which the first is answered: that of `Zone::build`; `NoZone` exactly where there is no zone of the origin;
    /// and `SerialNotGreater` exactly where its serial is not less than the new one (RFC 1982 section 3.2). `Store` comes where
    /// the store fails, and `NoMemory` where memory runs out.
    pub fn replace(
        &mut self,
        alloc: Global,
        origin: Name,
        records: Vec<Record>,
    ) -> Result<Zone, StoreFault>
        ensures answer { HasCleanDisk (state S.Store self.new.conn) → (s : State) → HoldsState (state S.Store self.old.conn) s
            → Gives (λ zone. zone) result (replaced s origin records.items) }
        ensures turns { Turns (state S.Store self.old.conn) (state S.Store self.new.conn) result (λ s. with_replaced s (replaced s origin records.items)) }
        ensures counts { CountsCall self.old.book.total self.new.book.total result }
    {
        self.cache = None;
        self.zones = None;
        self.history = None;
        self.histories = None;
        match replace(alloc, &mut self.conn, origin, records) {
            Ok(zone) => Ok(zone),
            Err(fault) => Err(self.count(fault)),
        }
    }

    /// Takes the zone of an origin out, with its records and its changes, in one transaction.
    ///
    /// All receipts stay. An update that was answered keeps its reply: sent again under its identifier, it gets that reply and changes
    /// nothing, whether its zone is gone or another was imported of the same origin. Such a zone has no changes at first, and numbers
    /// them from 1; it has nothing of what updates did to the zone before it.
    ///
    /// `NoZone` comes exactly where there is no zone of the origin, `Store` where the store fails, and `NoMemory` where memory runs
    /// out. Then nothing changes.
    pub fn remove(&mut self, alloc: Global, origin: &Name) -> Result<(), StoreFault>
        ensures answer { HasCleanDisk (state S.Store self.new.conn) → (s : State) → HoldsState (state S.Store self.old.conn) s
            → Gives (λ done. done) result (removed (s.zones origin.now)) }
        ensures turns { Turns (state S.Store self.old.conn) (state S.Store self.new.conn) result (λ s. without_zone s origin.now) }
        ensures counts { CountsCall self.old.book.total self.new.book.total result }
    {
        self.cache = None;
        self.zones = None;
        self.history = None;
        self.histories = None;
        match remove(alloc, &mut self.conn, origin) {
            Ok(()) => Ok(()),
            Err(fault) => Err(self.count(fault)),
        }
    }

    /// The records of the zone of an origin, in record order. `NoZone` comes exactly where the zone is missing, `Store` where the store
    /// fails, and `NoMemory` where memory runs out.
    pub fn export_records(
        &mut self,
        alloc: Global,
        origin: &Name,
    ) -> Result<Vec<Record>, StoreFault>
        ensures answer { HasCleanDisk (state S.Store self.new.conn) → (s : State) → HoldsState (state S.Store self.old.conn) s
            → Gives (λ records. records.items) result (exported (s.zones origin.now)) }
        ensures asks { AsksOnly (state S.Store self.old.conn) (state S.Store self.new.conn) result }
        ensures counts { CountsCall self.old.book.total self.new.book.total result }
    {
        match export_cached(alloc, &mut self.conn, &mut self.cache, origin) {
            Ok(records) => Ok(records),
            Err(fault) => Err(self.count(fault)),
        }
    }

    /// The zone of an origin, where there is one. `Store` comes where the store fails, and `NoMemory` where memory runs out.
    pub fn stored_zone(&mut self, alloc: Global, origin: &Name) -> Result<Option<Zone>, StoreFault>
        ensures answer { HasCleanDisk (state S.Store self.new.conn)
            → IfOk result (λ zone. (s : State) → HoldsState (state S.Store self.old.conn) s → zone ≡ zone_at s origin.now) }
        ensures named { IfErr result IsFailure }
        ensures asks { AsksOnly (state S.Store self.old.conn) (state S.Store self.new.conn) result }
        ensures counts { CountsCall self.old.book.total self.new.book.total result }
    {
        match zone_at(alloc, &mut self.conn, origin) {
            Ok(zone) => Ok(zone),
            Err(fault) => Err(self.count(fault)),
        }
    }

    /// The changes of a zone, the oldest first, where there is the zone. `Store` comes where the store fails, and `NoMemory` where
    /// memory runs out.
    pub fn stored_changes(
        &mut self,
        alloc: Global,
        origin: &Name,
    ) -> Result<Option<Vec<Change>>, StoreFault>
        ensures answer { HasCleanDisk (state S.Store self.new.conn)
            → IfOk result
            (λ changes. (s : State) → HoldsState (state S.Store self.old.conn) s
            → option_map (λ cs. map change_in cs.items) changes ≡ changes_held s origin.now) }
        ensures named { IfErr result IsFailure }
        ensures asks { AsksOnly (state S.Store self.old.conn) (state S.Store self.new.conn) result }
        ensures counts { CountsCall self.old.book.total self.new.book.total result }
    {
        match changes_at(alloc, &mut self.conn, origin) {
            Ok(changes) => Ok(changes),
            Err(fault) => Err(self.count(fault)),
        }
    }

    /// The origins of all zones, in canonical order (RFC 4034 section 6.1). `Store` comes where the store fails, and `NoMemory`
    /// where memory runs out.
    pub fn origins(&mut self, alloc: Global) -> Result<Vec<Name>, StoreFault>
        ensures answer { HasCleanDisk (state S.Store self.new.conn)
            → IfOk result (λ names. (s : State) → HoldsState (state S.Store self.old.conn) s → AreOriginsOf s names.items) }
        ensures named { IfErr result IsFailure }
        ensures asks { AsksOnly (state S.Store self.old.conn) (state S.Store self.new.conn) result }
        ensures counts { CountsCall self.old.book.total self.new.book.total result }
    {
        match origins(alloc, &mut self.conn) {
            Ok(names) => Ok(names),
            Err(fault) => Err(self.count(fault)),
        }
    }

    /// All receipts, by caller, and then by identifier, in the order of octets. `Store` comes where the store fails, and `NoMemory`
    /// where memory runs out.
    pub fn receipts(&mut self, alloc: Global) -> Result<Vec<KeptReceipt>, StoreFault>
        ensures answer { HasCleanDisk (state S.Store self.new.conn)
            → IfOk result (λ kept. (s : State) → HoldsState (state S.Store self.old.conn) s → AreReceiptsOf s kept.items) }
        ensures named { IfErr result IsFailure }
        ensures asks { AsksOnly (state S.Store self.old.conn) (state S.Store self.new.conn) result }
        ensures counts { CountsCall self.old.book.total self.new.book.total result }
    {
        match receipts(alloc, &mut self.conn) {
            Ok(kept) => Ok(kept),
            Err(fault) => Err(self.count(fault)),
        }
    }
}

impl<S: Alter + Drop, L: Ledger> ZoneTable for SqlTable<S, L> {
    ghost use Rattle.std.proofs.Common.{inl, inr, pos};
    ghost use Rattle.store_rows.proofs.StateLaws.{states_are_sound};

    ghost holds = { λ t s. HoldsState (state S.Store t.conn) s };

    ghost is_honest = { λ t. HasCleanDisk (state S.Store t.conn) };

    ghost leaves = { λ t s u. LeavesStates (state S.Store t.conn) s u };

    ghost failures = { λ t. t.book.total };

    fn has_zone(&mut self, alloc: Global, origin: &Name) -> Result<bool, TableFault> {
        self.turn_cache(alloc, origin);
        match cached_or_held(alloc, &mut self.conn, &self.cache, origin) {
            Ok(found) => Ok(found),
            Err(fault) => Err(self.fail(fault)),
        }
    }

    fn zone(&mut self, alloc: Global, origin: &Name) -> Result<Option<Zone>, TableFault> {
        match zone_at(alloc, &mut self.conn, origin) {
            Ok(zone) => Ok(zone),
            Err(fault) => Err(self.fail(fault)),
        }
    }

    fn part(
        &mut self,
        alloc: Global,
        origin: &Name,
        names: &[Name],
    ) -> Result<Option<Zone>, TableFault> {
        self.turn_cache(alloc, origin);
        match cached_part(alloc, &mut self.conn, &self.cache, origin, names) {
            Ok(part) => Ok(part),
            Err(fault) => Err(self.fail(fault)),
        }
    }

    fn subtree(
        &mut self,
        alloc: Global,
        origin: &Name,
        top: &Name,
        grants: &mut Grants<'_>,
    ) -> Result<Option<Vec<Record>>, TableFault> {
        self.turn_cache(alloc, origin);
        match cached_subtree(
            alloc,
            &mut self.conn,
            &mut self.cache,
            &mut self.subtree_read,
            origin,
            top,
            grants,
        ) {
            Ok(records) => Ok(records),
            Err(fault) => Err(self.fail(fault)),
        }
    }

    fn receipt(
        &mut self,
        alloc: Global,
        caller: &Identifier,
        id: &Identifier,
    ) -> Result<Option<Receipt>, TableFault> {
        match receipt_at(alloc, &mut self.conn, caller, id) {
            Ok(receipt) => Ok(receipt),
            Err(fault) => Err(self.fail(fault)),
        }
    }

    fn changes(&mut self, alloc: Global, origin: &Name) -> Result<Option<Vec<Change>>, TableFault> {
        match changes_at(alloc, &mut self.conn, origin) {
            Ok(changes) => Ok(changes),
            Err(fault) => Err(self.fail(fault)),
        }
    }

    fn changes_behind(
        &mut self,
        alloc: Global,
        origin: &Name,
        count: u32,
        most: u32,
    ) -> Result<Option<Vec<Change>>, TableFault> {
        self.turn_history(alloc, origin);
        match changes_behind(alloc, &mut self.conn, origin, count, most) {
            Ok(None) => Ok(None),
            Ok(Some(changes)) => {
                remember(alloc, &mut self.history, origin, count, &changes);
                Ok(Some(changes))
            }
            Err(fault) => Err(self.fail(fault)),
        }
    }

    fn ahead(
        &mut self,
        origin: &Name,
        count: u32,
        grants: &mut Grants<'_>,
    ) -> Result<Ahead, TableFault> {
        turn_on(&mut self.history, &mut self.histories, origin);
        let ahead = ahead_in(&self.history, origin, count, grants);
        if ahead.hidden == 0 {
            return Ok(ahead);
        }
        // a connection that is shut tells nothing of what is held
        match check_open(&mut self.conn) {
            Ok(()) => Ok(ahead),
            Err(fault) => Err(self.fail(fault)),
        }
    }

    fn pass(
        &mut self,
        origin: &Name,
        count: u32,
        most: u32,
        grants: &mut Grants<'_>,
    ) -> Result<Passed, TableFault> {
        turn_on(&mut self.history, &mut self.histories, origin);
        let passed = passed_in(&self.history, origin, count, most, grants);
        if passed.read == 0 {
            return Ok(Passed::NONE);
        }
        // a connection that is shut tells nothing of what is held
        match check_open(&mut self.conn) {
            Ok(()) => Ok(passed),
            Err(fault) => Err(self.fail(fault)),
        }
    }

    fn commit(&mut self, alloc: Global, addition: Addition) -> Result<(), TableFault> {
        // the zone at hand follows, and one of the same origin beside it would not
        forget_on(&mut self.zones, &addition.receipt.origin);
        match commit_cached(alloc, &mut self.conn, &mut self.cache, &addition) {
            Ok(()) => Ok(()),
            Err(fault) => Err(self.fail(fault)),
        }
    }

    ghost zones = { λ table s held. (states_are_sound (pos 2) held.rows s held.are).0 };

    ghost receipts = { λ table s held. (states_are_sound (pos 2) held.rows s held.are).1 };

    ghost weaker = { λ t s u left clean db may. elim (left clean db may) [ inl it ↦ inl it | inr it ↦ inl it ] };
}

//! What the machine asks of a table.

ghost use Rattle.std.specs.Prelude.{◌≡◌, ℕ, ◌+◌, List, Option, Some, map, drop, take, option_map, IfOk, IfSome, OnOk, OnErr};
ghost use Rattle.std.specs.Option.{is_some};
ghost use Rattle.dns_data.specs.declared.record.Record.{Record};
ghost use Rattle.zone_core.specs.Sets.{InOrder};
ghost use Rattle.zone_core.specs.Changes.{change_in};
ghost use Rattle.office_model.specs.States.{Held, State, AreZones, AreReceipts, zone_at, part_at, subtree_at, changes_at};
ghost use Rattle.office_model.specs.Tables.{AreHidden, ArePassed, Counts, Fits, ReadsOnly, Settles, addition_in, committed, included};

use crate::ahead::Ahead;
use crate::passed::Passed;
use crate::receipt::{Addition, Receipt};
use crate::table_fault::TableFault;
use dns_data::Record;
use dns_names::Name;
use grant_policy::{Grants, Identifier};
use std::alloc::Global;
use zone_core::{Change, Zone};

/// A table of zones with their changes, and of receipts. Each call either answers or changes nothing but the count of failures. A table
/// that answers from its store has nothing left to lose: a crash leaves what it holds.
pub trait ZoneTable {
    // It holds this state. A table that its store has shut holds any state, and refuses each call.
    ghost holds: { Self → State → Type 0 };

    // The store has kept its word so far. It may break it at any call, and no call tells so.
    ghost is_honest: { Self → Type 0 };

    // A crash at this moment leaves the first state or the second, and nothing else.
    ghost leaves: { Self → State → State → Type 0 };

    // How many calls have answered `Store` so far. The count has no greatest value.
    ghost failures: { Self → ℕ };

    /// Whether there is the zone of an origin. None of its records is read.
    fn has_zone(&mut self, alloc: Global, origin: &Name) -> Result<bool, TableFault>
        ensures answer { is_honest self.new → IfOk result (λ found. (s : State) → holds self.old s → found ≡ is_some (s.zones origin.now)) }
        ensures reads { ReadsOnly holds is_honest leaves failures self.old self.new result }
        ensures settled { Settles holds is_honest leaves self.new result };

    /// The zone of an origin, where there is one.
    fn zone(&mut self, alloc: Global, origin: &Name) -> Result<Option<Zone>, TableFault>
        ensures answer { is_honest self.new → IfOk result (λ zone. (s : State) → holds self.old s → zone ≡ zone_at s origin.now) }
        ensures reads { ReadsOnly holds is_honest leaves failures self.old self.new result }
        ensures settled { Settles holds is_honest leaves self.new result };

    /// The part of a zone that has its records at the origin and at some names, where there is the zone.
    fn part(
        &mut self,
        alloc: Global,
        origin: &Name,
        names: &[Name],
    ) -> Result<Option<Zone>, TableFault>
        ensures answer { is_honest self.new → IfOk result (λ zone. (s : State) → holds self.old s → zone ≡ part_at s origin.now names.now) }
        ensures reads { ReadsOnly holds is_honest leaves failures self.old self.new result }
        ensures settled { Settles holds is_honest leaves self.new result };

    /// The records of a zone within a name that grants include, in record order, where there is the zone. No other record is copied.
    fn subtree(
        &mut self,
        alloc: Global,
        origin: &Name,
        top: &Name,
        grants: &mut Grants<'_>,
    ) -> Result<Option<Vec<Record>>, TableFault>
        ensures answer { is_honest self.new
            → IfOk result
            (λ records. (s : State) → holds self.old s
            → option_map (λ rs. rs.items) records ≡ option_map (included grants.old) (subtree_at s origin.now top.now)) }
        // They are in record order, whatever the store has done.
        ensures order { IfOk result (λ records. IfSome records (λ rs. InOrder rs.items)) }
        ensures same { grants.new ≡ grants.old }
        ensures reads { ReadsOnly holds is_honest leaves failures self.old self.new result }
        ensures settled { Settles holds is_honest leaves self.new result };

    /// The receipt of a caller under an identifier, where there is one.
    fn receipt(
        &mut self,
        alloc: Global,
        caller: &Identifier,
        id: &Identifier,
    ) -> Result<Option<Receipt>, TableFault>
        ensures answer { is_honest self.new → IfOk result (λ receipt. (s : State) → holds self.old s → receipt ≡ s.receipts caller.now id.now) }
        ensures reads { ReadsOnly holds is_honest leaves failures self.old self.new result }
        ensures settled { Settles holds is_honest leaves self.new result };

    /// The changes of a zone, the oldest first, where there is the zone.
    fn changes(&mut self, alloc: Global, origin: &Name) -> Result<Option<Vec<Change>>, TableFault>
        ensures answer { is_honest self.new
            → IfOk result (λ changes. (s : State) → holds self.old s → option_map (λ cs. map change_in cs.items) changes ≡ changes_at s origin.now) }
        ensures reads { ReadsOnly holds is_honest leaves failures self.old self.new result }
        ensures settled { Settles holds is_honest leaves self.new result };

    /// The changes of a zone after the first ones, so many, and at most so many of them; the oldest first, where there is the zone.
    fn changes_behind(
        &mut self,
        alloc: Global,
        origin: &Name,
        count: u32,
        most: u32,
    ) -> Result<Option<Vec<Change>>, TableFault>
        ensures answer { is_honest self.new
            → IfOk result
            (λ changes. (s : State) → holds self.old s
            → option_map (λ cs. map change_in cs.items) changes ≡ option_map (λ cs. take most (drop count cs)) (changes_at s origin.now)) }
        ensures reads { ReadsOnly holds is_honest leaves failures self.old self.new result }
        ensures settled { Settles holds is_honest leaves self.new result };

    /// What comes next among the changes of a zone after the first ones, so many, as far as the table remembers what it has read. It may
    /// answer without its store.
    fn ahead(
        &mut self,
        origin: &Name,
        count: u32,
        grants: &mut Grants<'_>,
    ) -> Result<Ahead, TableFault>
        ensures hidden { is_honest self.new
            → IfOk result
            (λ ahead. (s : State) (held : Held) → holds self.old s → s.zones origin.now ≡ Some held
            → AreHidden grants.old (drop count held.changes) ahead.hidden) }
        ensures same { grants.new ≡ grants.old }
        ensures reads { ReadsOnly holds is_honest leaves failures self.old self.new result };

    /// Passes over the next changes of a zone after the first ones, so many, as far as the table remembers what they touch: up to the first
    /// of which grants include a record after so many of such. It may answer without its store.
    fn pass(
        &mut self,
        origin: &Name,
        count: u32,
        most: u32,
        grants: &mut Grants<'_>,
    ) -> Result<Passed, TableFault>
        ensures passed { is_honest self.new
            → IfOk result
            (λ passed. (s : State) (held : Held) → holds self.old s → s.zones origin.now ≡ Some held
            → ArePassed grants.old (drop count held.changes) most passed) }
        ensures same { grants.new ≡ grants.old }
        ensures reads { ReadsOnly holds is_honest leaves failures self.old self.new result };

    /// Makes an addition: all of it, or nothing. The caller's identifier is new; a change has some record, its zone is there,
    /// the records that go are in it, those that come are not beside them, and the zone with them is a zone.
    fn commit(&mut self, alloc: Global, addition: Addition) -> Result<(), TableFault>
        requires fits { is_honest self.old → (s : State) → holds self.old s → Fits s (addition_in addition) }
        ensures made { is_honest self.new → OnOk result ((s : State) → holds self.old s → holds self.new (committed (addition_in addition) s)) }
        ensures failed { OnErr result ((s : State) → holds self.old s → holds self.new s) }
        ensures kept { is_honest self.new
            → OnOk result ((s : State) → holds self.old s → leaves self.old s s → (let t = committed (addition_in addition) s in leaves self.new t t)) }
        ensures crash { OnErr result ((s : State) → holds self.old s → leaves self.old s s → leaves self.new s (committed (addition_in addition) s)) }
        ensures honest { is_honest self.new → is_honest self.old }
        ensures counts { Counts (failures self.old) (failures self.new) result };

    // What is held of each origin is a zone.
    ghost zones: { (table : Self) (s : State) → holds table s → AreZones s };

    // Each receipt that is held is of an update.
    ghost receipts: { (table : Self) (s : State) → holds table s → AreReceipts s };

    // What a crash leaves for sure it leaves also among two.
    ghost weaker: { (table : Self) (s t : State) → leaves table s s → leaves table s t };
}

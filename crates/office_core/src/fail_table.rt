//! A table that fails at chosen calls, for tests.

ghost use Rattle.std.specs.Prelude.{◌≡◌, ◌<◌, OnErr};
ghost use Rattle.office_model.specs.Tables.{Counts};
ghost use Rattle.office_core.specs.Memory.{HoldsState};

use crate::memory::MemTable;
use dns_data::Record;
use dns_names::Name;
use grant_policy::{Grants, Identifier};
use office_model::{Addition, Ahead, Passed, Receipt, TableFault, ZoneTable};
use std::alloc::Global;
use std::sync::ledger::{Blank, Book, Ledger, Share};
use zone_core::{Change, Zone};

/// A kind of call of a table.
#[derive(Clone, Copy, PartialEq, Eq)]
pub enum TableCall {
    HasZone,
    Zone,
    Part,
    Subtree,
    Receipt,
    Changes,
    Commit,
}

/// A table in memory of which each call of some kinds answers `Store`, and does nothing else.
#[derive(Drop)]
pub struct FailTable<L: Ledger> {
    table: MemTable,
    failing: Vec<TableCall>,
    book: Book<L>,
    share: Share<L>,
    ghost counts: { 0 < share.parts },
}

impl<L: Ledger> FailTable<L> {
    /// A table of which calls of these kinds fail. Their count begins at none.
    pub fn new(table: MemTable, failing: Vec<TableCall>, blank: Blank) -> FailTable<L>
        requires name { blank.name ≡ L.name }
        requires parts { blank.parts ≡ L.parts }
        requires some { 0 < blank.parts }
        ensures table { result.table ≡ table }
        ensures failing { result.failing ≡ failing }
        ensures none { result.book.total ≡ 0 }
    {
        let (book, share) = blank.open::<L>();
        FailTable {
            table,
            failing,
            book,
            share,
        }
    }

    /// The table without its failures.
    pub fn into_inner(self) -> MemTable
        ensures { result ≡ self.table }
    {
        self.table
    }

    /// Fails, if calls of this kind do.
    fn call(&mut self, call: TableCall) -> Result<(), TableFault>
        ensures table { self.new.table ≡ self.old.table }
        ensures counts { Counts self.old.book.total self.new.book.total result }
    {
        if self.failing.contains(&call) {
            self.book.add(&mut self.share, 1);
            return Err(TableFault::Store);
        }
        Ok(())
    }
}

impl<L: Ledger> ZoneTable for FailTable<L> {
    ghost holds = { λ t. HoldsState t.table };

    ghost is_honest = { λ _. Unit {0} };

    ghost leaves = { λ _ _ _. Unit {0} };

    ghost failures = { λ t. t.book.total };

    fn has_zone(&mut self, alloc: Global, origin: &Name) -> Result<bool, TableFault> {
        self.call(TableCall::HasZone)?;
        self.table.has_zone(alloc, origin)
    }

    fn zone(&mut self, alloc: Global, origin: &Name) -> Result<Option<Zone>, TableFault> {
        self.call(TableCall::Zone)?;
        self.table.zone(alloc, origin)
    }

    fn part(
        &mut self,
        alloc: Global,
        origin: &Name,
        names: &[Name],
    ) -> Result<Option<Zone>, TableFault> {
        self.call(TableCall::Part)?;
        self.table.part(alloc, origin, names)
    }

    fn subtree(
        &mut self,
        alloc: Global,
        origin: &Name,
        top: &Name,
        grants: &mut Grants<'_>,
    ) -> Result<Option<Vec<Record>>, TableFault> {
        self.call(TableCall::Subtree)?;
        self.table.subtree(alloc, origin, top, grants)
    }

    fn receipt(
        &mut self,
        alloc: Global,
        caller: &Identifier,
        id: &Identifier,
    ) -> Result<Option<Receipt>, TableFault> {
        self.call(TableCall::Receipt)?;
        self.table.receipt(alloc, caller, id)
    }

    fn changes(&mut self, alloc: Global, origin: &Name) -> Result<Option<Vec<Change>>, TableFault> {
        self.call(TableCall::Changes)?;
        self.table.changes(alloc, origin)
    }

    fn changes_behind(
        &mut self,
        alloc: Global,
        origin: &Name,
        count: u32,
        most: u32,
    ) -> Result<Option<Vec<Change>>, TableFault> {
        self.call(TableCall::Changes)?;
        self.table.changes_behind(alloc, origin, count, most)
    }

    fn ahead(
        &mut self,
        origin: &Name,
        count: u32,
        grants: &mut Grants<'_>,
    ) -> Result<Ahead, TableFault> {
        self.call(TableCall::Changes)?;
        self.table.ahead(origin, count, grants)
    }

    fn pass(
        &mut self,
        origin: &Name,
        count: u32,
        most: u32,
        grants: &mut Grants<'_>,
    ) -> Result<Passed, TableFault> {
        self.call(TableCall::Changes)?;
        self.table.pass(origin, count, most, grants)
    }

    fn commit(&mut self, alloc: Global, addition: Addition) -> Result<(), TableFault> {
        self.call(TableCall::Commit)?;
        self.table.commit(alloc, addition)
    }

    ghost zones = { λ table s held. held.are_zones };

    ghost receipts = { λ table s held. held.are_receipts };

    ghost weaker = { λ table s t left. left };
}

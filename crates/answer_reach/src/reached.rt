//! The questions that a caller can have answered otherwise.

ghost use Rattle.std.specs.Prelude.{◌≡◌, ◌∷◌, ◌++◌, [], List, ℕ, if◌then◌else◌, IfOk, map};
ghost use Rattle.std.specs.List.{Contains};
ghost use Rattle.std.specs.List.Sorted.{IsStrictlySortedBy};
ghost use Rattle.zone_core.specs.Sets.{listing};
ghost use Rattle.zone_core.specs.Zones.{ZoneOf};
ghost use Rattle.zone_answers.specs.AnswerChanges.{Differs, AreTypes};
ghost use Rattle.zone_answers.specs.declared.query_type.QueryType.{QueryType};
ghost use Rattle.answer_reach.specs.declared.reached.ReachedAnswers.{ReachedAnswers};
ghost use Rattle.answer_reach.specs.Turns.{CanMake};
ghost use Rattle.answer_reach.specs.ReachedGroups.{IsListed, IsGroup, group_cmp};
ghost use Rattle.answer_reach.specs.ReachTests.{AreSorted, StaysUp, IsWhole, reaches_in, types_in, row_of, row_for, rows_at, rows_for, AreRowsOf};

use crate::asker::Asker;
use crate::name_lists::known_names;
use crate::reach_map::ReachMap;
use crate::rights::Rights;
use crate::whole_zone::WholeZone;
use dns_names::Name;
use grant_policy::{Identifier, Policy};
use std::alloc::{AllocError, Global};
use zone_answers::{QueryType, ZoneIndex};

/// Names that a caller reaches alike.
#[derive(Drop)]
pub enum ReachedNames {
    /// One name.
    At(Name),
    /// All names below one, but for those at or below a nearer one that exists, or at or below which is the target of an alias or the
    /// name of a rule.
    Others(Name),
}

/// The types for which the names of a group may be answered otherwise.
#[derive(Drop)]
pub struct ReachedAnswers {
    pub names: ReachedNames,
    /// In the order of `QueryType::ALL`.
    pub types: Vec<QueryType>,
}

impl<'a> Asker<'a> {
    /// Whether the caller reaches a question for the names of a group. The only error is out of memory.
    fn reaches_in(
        &self,
        alloc: Global,
        lists: &ReachMap,
        names: &ReachedNames,
        asked: QueryType,
    ) -> Result<bool, AllocError>
        requires { AreSorted lists.now }
        ensures { IfOk result (λ b. b ≡ reaches_in self.now.rights.now.rules self.now.rights.now.caller self.now.index.now.origin (listing self.now.index.now.records) lists.now names.now asked) }
    {
        match names {
            ReachedNames::At(name) => self.reaches(alloc, lists, name, asked),
            ReachedNames::Others(above) => self.reaches_under(alloc, lists, above, asked),
        }
    }

    /// Appends a type, if the caller reaches it for the names of a group. The only error is out of memory.
    fn push_type(
        &self,
        alloc: Global,
        types: &mut Vec<QueryType>,
        lists: &ReachMap,
        names: &ReachedNames,
        asked: QueryType,
    ) -> Result<(), AllocError>
        requires { AreSorted lists.now }
        ensures { IfOk result (λ _. types.new.items ≡ types.old.items ++ (if reaches_in self.now.rights.now.rules self.now.rights.now.caller self.now.index.now.origin (listing self.now.index.now.records) lists.now names.now asked then asked ∷ [] else [])) }
    {
        if self.reaches_in(alloc, lists, names, asked)? {
            types.push(asked)?;
        }
        Ok(())
    }

    /// The types that the caller reaches for the names of a group. The only error is out of memory.
    fn types_in(
        &self,
        alloc: Global,
        lists: &ReachMap,
        names: &ReachedNames,
    ) -> Result<Vec<QueryType>, AllocError>
        requires { AreSorted lists.now }
        ensures { IfOk result (λ types. types.items ≡ types_in self.now.rights.now.rules self.now.rights.now.caller self.now.index.now.origin (listing self.now.index.now.records) lists.now names.now) }
    {
        let mut types = Vec::new(alloc);
        for asked in &QueryType::ALL {
            self.push_type(alloc, &mut types, lists, names, *asked)?;
        }
        Ok(types)
    }

    /// Appends the row of a group, if it has types. The only error is out of memory.
    fn push_row(
        &self,
        alloc: Global,
        rows: &mut Vec<ReachedAnswers>,
        lists: &ReachMap,
        names: ReachedNames,
    ) -> Result<(), AllocError>
        requires { AreSorted lists.now }
        ensures { IfOk result (λ _. map row_of rows.new.items ≡ map row_of rows.old.items ++ row_for self.now.rights.now.rules self.now.rights.now.caller self.now.index.now.origin (listing self.now.index.now.records) lists.now names) }
    {
        let types = self.types_in(alloc, lists, &names)?;
        if types.is_empty() {
            return Ok(());
        }
        rows.push(ReachedAnswers { names, types })?;
        Ok(())
    }

    /// Appends the rows of a name and of those below it that are not known. The only error is out of memory.
    fn push_both(
        &self,
        alloc: Global,
        rows: &mut Vec<ReachedAnswers>,
        lists: &ReachMap,
        name: &Name,
    ) -> Result<(), AllocError>
        requires { AreSorted lists.now }
        ensures { IfOk result (λ _. map row_of rows.new.items ≡ map row_of rows.old.items ++ rows_at self.now.rights.now.rules self.now.rights.now.caller self.now.index.now.origin (listing self.now.index.now.records) lists.now name.now) }
    {
        let own = ReachedNames::At(name.try_copy(alloc)?);
        self.push_row(alloc, rows, lists, own)?;
        let others = ReachedNames::Others(name.try_copy(alloc)?);
        self.push_row(alloc, rows, lists, others)
    }

    /// The same of a known name, most of which have none. The only error is out of memory.
    fn push_rows(
        &self,
        alloc: Global,
        rows: &mut Vec<ReachedAnswers>,
        lists: &ReachMap,
        whole: &WholeZone,
        name: &Name,
    ) -> Result<(), AllocError>
        requires sorted { AreSorted lists.now }
        requires stays { StaysUp self.now.rights.now.rules self.now.rights.now.caller self.now.index.now.origin (listing self.now.index.now.records) lists.now }
        requires whole { IsWhole self.now.rights.now.rules self.now.rights.now.caller self.now.index.now.origin (listing self.now.index.now.records) lists.now whole.now }
        ensures { IfOk result (λ _. map row_of rows.new.items ≡ map row_of rows.old.items ++ rows_at self.now.rights.now.rules self.now.rights.now.caller self.now.index.now.origin (listing self.now.index.now.records) lists.now name.now) }
    {
        // the proof needs that it is a zone
        let _ = self.index.zone().records();
        if !self.may_have_rows(alloc, lists, whole, name)? {
            return Ok(());
        }
        self.push_both(alloc, rows, lists, name)
    }

    /// The rows of known names. The only error is out of memory.
    fn rows_for(
        &self,
        alloc: Global,
        lists: &ReachMap,
        whole: &WholeZone,
        names: &[Name],
    ) -> Result<Vec<ReachedAnswers>, AllocError>
        requires sorted { AreSorted lists.now }
        requires stays { StaysUp self.now.rights.now.rules self.now.rights.now.caller self.now.index.now.origin (listing self.now.index.now.records) lists.now }
        requires whole { IsWhole self.now.rights.now.rules self.now.rights.now.caller self.now.index.now.origin (listing self.now.index.now.records) lists.now whole.now }
        ensures { IfOk result (λ rows. map row_of rows.items ≡ rows_for self.now.rights.now.rules self.now.rights.now.caller self.now.index.now.origin (listing self.now.index.now.records) lists.now names.now) }
    {
        let mut rows = Vec::new(alloc);
        for name in names {
            self.push_rows(alloc, &mut rows, lists, whole, name)?;
        }
        Ok(rows)
    }

    /// The rows of all names that are known. The only error is out of memory.
    fn all_rows(&self, alloc: Global) -> Result<Vec<ReachedAnswers>, AllocError>
        ensures { IfOk result (λ rows. AreRowsOf self.now.rights.now.rules self.now.rights.now.caller self.now.index.now.origin (listing self.now.index.now.records) rows.items) }
    {
        let zone = self.index.zone();
        let rules = self.rights.policy().rules();
        let known = known_names(alloc, zone.origin(), rules, zone.records())?;
        let lists = self.lists(alloc, &known)?;
        let whole = self.whole(alloc, &lists)?;
        self.rows_for(alloc, &lists, &whole, &known)
    }
}

/// The questions that a caller can have answered otherwise than by a zone, by any updates that a policy lets it make from this zone on, in
/// whatever order, nobody else acting; but for the serial of an SOA in the authority section: over all names, as groups of names in
/// canonical order, each in at most one row.
///
/// A row may have a question whose answer stays: where a name that comes to exist, or ceases to, and a wildcard give the same negative
/// answer; below `*` itself, where only the wildcard changes; for each question, where the caller can replace the SOA; and the SOA itself,
/// where what is granted changes nothing. What the prerequisites of an update ask for does not count.
///
/// For each name at or above a record, the target of an alias or the name of a rule, it takes some look-ups, and one in the names of
/// rules that grant the caller changes. Where one of these may grant some, or an answer may change for another reason, it takes a pass
/// over the rules for each type of record, and for each type of question an answer, some decisions, and a look-up for each label. The
/// only error is out of memory.
pub fn reached_answers(
    alloc: Global,
    index: &ZoneIndex,
    policy: &Policy,
    caller: &Identifier,
) -> Result<Vec<ReachedAnswers>, AllocError>
    // Whatever the caller makes of the zone, each question that is then answered otherwise is in a row.
    ensures sound { IfOk result (λ rows. (after : ZoneOf) → CanMake policy.now caller.now index.now after → (name : List (List ℕ)) (asked : QueryType) → Differs index.now.origin (listing index.now.records) (listing after.records) name asked → IsListed policy.now (listing index.now.records) rows.items name asked) }
    // No group has two rows.
    ensures order { IfOk result (λ rows. IsStrictlySortedBy group_cmp (map (λ row. row.names) rows.items)) }
    // Each group is that of a known name, or of those below it that are not known.
    ensures groups { IfOk result (λ rows. (row : ReachedAnswers) → Contains rows.items row → IsGroup index.now.origin policy.now (listing index.now.records) row.names) }
    // Each row has types, in their order.
    ensures types { IfOk result (λ rows. (row : ReachedAnswers) → Contains rows.items row → AreTypes row.types.items) }
{
    // the proof needs that it is a zone
    let _ = index.zone().records();
    let rights = Rights::new(alloc, policy, caller)?;
    let asker = Asker {
        rights: &rights,
        index,
    };
    asker.all_rows(alloc)
}

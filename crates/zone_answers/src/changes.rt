//! Which questions are answered otherwise after a zone has changed.

ghost use Rattle.std.specs.Prelude.{◌≡◌, ◌↔◌, ◌∷◌, ◌++◌, ◌||◌, [], List, ℕ, if◌then◌else◌, IfOk, map};
ghost use Rattle.std.specs.List.{Contains};
ghost use Rattle.std.specs.List.Sorted.{IsStrictlySortedBy};
ghost use Rattle.zone_core.specs.Sets.{listing};
ghost use Rattle.zone_answers.specs.Views.{answer_of};
ghost use Rattle.zone_answers.specs.AnswerChanges.{Differs, IsListed, IsGroup, AreTypes, group_cmp};
ghost use Rattle.zone_answers.specs.AnswerTests.{is_there};
ghost use Rattle.zone_answers.specs.ChangeTests.{answer_for, row_of, differs, types_in, row_for, rows_at, rows_for};
ghost use Rattle.zone_answers.specs.declared.changes.ChangedAnswers.{ChangedAnswers};
ghost use Rattle.zone_answers.specs.declared.query_type.QueryType.{QueryType};

use crate::answer::Answer;
use crate::known_names::known_names;
use crate::query_type::QueryType;
use crate::rows::is_there;
use crate::sameness::same_answers;
use crate::unchanged::is_unchanged;
use crate::zone_index::ZoneIndex;
use dns_names::Name;
use std::alloc::{AllocError, Global};
use zone_core::Zone;

/// Names that a server answers alike.
#[derive(Drop)]
pub enum QuestionGroup {
    /// One name.
    At(Name),
    /// All names below one that exist in neither zone, have no closer encloser in either (RFC 4592 section 3.3.1), and are no target
    /// of an alias.
    Others(Name),
}

/// The types for which the names of a group are answered otherwise.
#[derive(Drop)]
pub struct ChangedAnswers {
    pub group: QuestionGroup,
    /// In the order of `QueryType::ALL`.
    pub types: Vec<QueryType>,
}

impl ZoneIndex {
    /// The answer for the names of a group. The only error is out of memory.
    fn answer_for(
        &self,
        alloc: Global,
        group: &QuestionGroup,
        asked: QueryType,
    ) -> Result<Answer, AllocError>
        ensures { IfOk result (λ answer. answer_of answer ≡ answer_for self.now.origin (listing self.now.records) group.now asked) }
    {
        match group {
            QuestionGroup::At(name) => self.answered(alloc, name, asked),
            QuestionGroup::Others(encloser) => self.answer_under(alloc, encloser, asked),
        }
    }
}

/// Whether two zones answer otherwise for the names of a group. The only error is out of memory.
fn differs(
    alloc: Global,
    old: &ZoneIndex,
    new: &ZoneIndex,
    group: &QuestionGroup,
    asked: QueryType,
) -> Result<bool, AllocError>
    requires { old.now.origin ≡ new.now.origin }
    ensures { IfOk result (λ b. b ≡ differs old.now.origin (listing old.now.records) (listing new.now.records) group.now asked) }
{
    let before = old.answer_for(alloc, group, asked)?;
    let after = new.answer_for(alloc, group, asked)?;
    Ok(!same_answers(&before, &after))
}

/// Appends a type, if two zones answer otherwise for the names of a group. The only error is out of memory.
fn push_type(
    alloc: Global,
    types: &mut Vec<QueryType>,
    old: &ZoneIndex,
    new: &ZoneIndex,
    group: &QuestionGroup,
    asked: QueryType,
) -> Result<(), AllocError>
    requires { old.now.origin ≡ new.now.origin }
    ensures { IfOk result (λ _. types.new.items ≡ types.old.items ++ (if differs old.now.origin (listing old.now.records) (listing new.now.records) group.now asked then asked ∷ [] else [])) }
{
    if differs(alloc, old, new, group, asked)? {
        types.push(asked)?;
    }
    Ok(())
}

/// The types for which two zones answer otherwise for the names of a group. The only error is out of memory.
fn types_in(
    alloc: Global,
    old: &ZoneIndex,
    new: &ZoneIndex,
    group: &QuestionGroup,
) -> Result<Vec<QueryType>, AllocError>
    requires { old.now.origin ≡ new.now.origin }
    ensures { IfOk result (λ types. types.items ≡ types_in old.now.origin (listing old.now.records) (listing new.now.records) group.now) }
{
    let mut types = Vec::new(alloc);
    for asked in &QueryType::ALL {
        push_type(alloc, &mut types, old, new, group, *asked)?;
    }
    Ok(types)
}

/// Appends the row of a group, if it has types. The only error is out of memory.
fn push_row(
    alloc: Global,
    rows: &mut Vec<ChangedAnswers>,
    old: &ZoneIndex,
    new: &ZoneIndex,
    group: QuestionGroup,
) -> Result<(), AllocError>
    requires { old.now.origin ≡ new.now.origin }
    ensures { IfOk result (λ _. map row_of rows.new.items ≡ map row_of rows.old.items ++ row_for old.now.origin (listing old.now.records) (listing new.now.records) group) }
{
    let types = types_in(alloc, old, new, &group)?;
    if types.is_empty() {
        return Ok(());
    }
    rows.push(ChangedAnswers { group, types })?;
    Ok(())
}

/// Whether a name exists in one of two zones.
fn exists(old: &Zone, new: &Zone, name: &Name) -> bool
    ensures { result ≡ (is_there (listing old.now.records) name.now || is_there (listing new.now.records) name.now) }
{
    is_there(old, name) || is_there(new, name)
}

/// Appends the rows of a known name and of those below it. The only error is out of memory.
fn push_rows(
    alloc: Global,
    rows: &mut Vec<ChangedAnswers>,
    old: &ZoneIndex,
    new: &ZoneIndex,
    name: &Name,
) -> Result<(), AllocError>
    requires { old.now.origin ≡ new.now.origin }
    ensures { IfOk result (λ _. map row_of rows.new.items ≡ map row_of rows.old.items ++ rows_at old.now.origin (listing old.now.records) (listing new.now.records) name.now) }
{
    let own = QuestionGroup::At(name.try_copy(alloc)?);
    push_row(alloc, rows, old, new, own)?;
    if exists(old.zone(), new.zone(), name) {
        let others = QuestionGroup::Others(name.try_copy(alloc)?);
        return push_row(alloc, rows, old, new, others);
    }
    Ok(())
}

/// Appends the rows of a known name and of those below it, unless nothing has changed there. The only error is out of memory.
fn push_changed(
    alloc: Global,
    rows: &mut Vec<ChangedAnswers>,
    old: &ZoneIndex,
    new: &ZoneIndex,
    name: &Name,
) -> Result<(), AllocError>
    requires { old.now.origin ≡ new.now.origin }
    ensures { IfOk result (λ _. map row_of rows.new.items ≡ map row_of rows.old.items ++ rows_at old.now.origin (listing old.now.records) (listing new.now.records) name.now) }
{
    let unchanged = is_unchanged(alloc, old, new, name)?;
    if unchanged {
        return Ok(());
    }
    push_rows(alloc, rows, old, new, name)
}

/// The rows of known names. The only error is out of memory.
fn rows_for(
    alloc: Global,
    old: &ZoneIndex,
    new: &ZoneIndex,
    names: &[Name],
) -> Result<Vec<ChangedAnswers>, AllocError>
    requires { old.now.origin ≡ new.now.origin }
    ensures { IfOk result (λ rows. map row_of rows.items ≡ rows_for old.now.origin (listing old.now.records) (listing new.now.records) names.now) }
{
    let mut rows = Vec::new(alloc);
    for name in names {
        push_changed(alloc, &mut rows, old, new, name)?;
    }
    Ok(rows)
}

/// Which questions are answered otherwise in one zone than in another of the same origin, but for the serial of an SOA in the
/// authority section: over all names, as groups that are answered alike, each in one row. It takes some look-ups for each name that is
/// known in one of the zones, and where something has changed at it, two answers for each type of question at it and below it. An
/// alias, a name at or below a cut, and all names where the SOA of negative answers has changed, count as changed. The only error is out
/// of memory.
pub fn changed_answers(
    alloc: Global,
    old: &ZoneIndex,
    new: &ZoneIndex,
) -> Result<Vec<ChangedAnswers>, AllocError>
    requires { old.now.origin ≡ new.now.origin }
    // A question is answered otherwise exactly if a row has it.
    ensures exact { IfOk result (λ rows. (name : List (List ℕ)) (asked : QueryType) → Differs old.now.origin (listing old.now.records) (listing new.now.records) name asked ↔ IsListed (listing old.now.records ++ listing new.now.records) rows.items name asked) }
    // No group has two rows.
    ensures order { IfOk result (λ rows. IsStrictlySortedBy group_cmp (map (λ row. row.group) rows.items)) }
    // Each group is that of a known name, or of those below one that exists.
    ensures groups { IfOk result (λ rows. (row : ChangedAnswers) → Contains rows.items row → IsGroup old.now.origin (listing old.now.records ++ listing new.now.records) row.group) }
    // Each row has types, in their order.
    ensures types { IfOk result (λ rows. (row : ChangedAnswers) → Contains rows.items row → AreTypes row.types.items) }
{
    let before = old.zone();
    let after = new.zone();
    let names = known_names(alloc, before.origin(), before.records(), after.records())?;
    rows_for(alloc, old, new, &names)
}

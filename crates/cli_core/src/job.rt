//! What the program is to do.

use crate::commands::{
    Answer, Blame, Canon, Check, Diff, Explain, Export, Import, ImportList, Log, Migrate, Plan,
    PolicyText, Remove, Request, Reverse, Rights, Service, Split, Undo, Zones,
};

/// What the program is to do.
#[derive(Clone, Copy)]
pub enum Job<'a> {
    /// What needs no store.
    Text(TextJob<'a>),
    /// What needs a store.
    Store(StoreJob<'a>),
}

/// What the program is to do with texts: standard input and files.
#[derive(Clone, Copy)]
pub enum TextJob<'a> {
    /// To update a zone that is read from standard input.
    Apply,
    /// To print a zone that is read from standard input.
    Canon(Canon<'a>),
    /// To print the items that lead from a zone to another.
    Diff(Diff<'a>),
    /// To print the body of an update that is read from standard input, or the bodies of its parts.
    Request(Request<'a>),
    /// To ask a policy.
    Rights(Rights<'a>),
    /// To say what the office would answer to an update of a zone, both read from standard input.
    Plan(Plan<'a>),
    /// To check a policy, the isolation of a caller or a zone, or to print who may do what, or whose answers a caller can change.
    Check(Check<'a>),
    /// To print a policy.
    Policy(PolicyText<'a>),
    /// To print what a server answers from a zone.
    Answer(Answer<'a>),
    /// To print the PTR records that the addresses of zones call for.
    Reverse(Reverse<'a>),
    /// To print a part of a master file.
    Split(Split<'a>),
    /// To say what the number of a refusal means.
    Explain(Explain<'a>),
}

/// What the program is to do with a store.
#[derive(Clone, Copy)]
pub enum StoreJob<'a> {
    /// To put a zone that is read from standard input into a store.
    Import(Import<'a>),
    /// To put the zones of a list into a store, one after the other.
    ImportList(ImportList<'a>),
    /// To print a zone of a store.
    Export(Export<'a>),
    /// To print the zones of a store.
    Zones(Zones<'a>),
    /// To print the changes and the receipts of a zone of a store.
    Log(Log<'a>),
    /// To print the records of a zone of a store with the changes that brought them.
    Blame(Blame<'a>),
    /// To print the items that undo changes of a zone of a store.
    Undo(Undo<'a>),
    /// To take a store from version 1 of the tables to version 2.
    Migrate(Migrate<'a>),
    /// To take a zone out of a store.
    Remove(Remove<'a>),
    /// To answer callers over HTTP.
    Serve(Service<'a>),
}

/// As what a text is printed.
#[derive(Clone, Copy)]
pub enum TextForm {
    /// Lines for a person.
    Plain,
    /// JSON (RFC 8259), for a program.
    Json,
}

/// What is printed of the answers that a caller can change.
#[derive(Clone, Copy)]
pub enum ReachContent {
    /// The questions, in groups.
    Groups,
    /// These, and for each group one of them with operations that change its answer.
    Examples,
}

/// With what the records of a zone are printed.
#[derive(Clone, Copy)]
pub enum BlameForm {
    /// With the changes that brought them.
    Changes,
    /// With these, and the updates that may have made them.
    Receipts,
}

/// In which form a zone is printed.
#[derive(Clone, Copy)]
pub enum ZoneForm {
    /// Names, TTLs and classes are written whole.
    Whole,
    /// Owners are relative to the origin, and a TTL is written where it is not the zone's.
    Relative,
}

/// What a diff prints, and as what.
#[derive(Clone, Copy)]
pub struct DiffForm {
    /// What it prints.
    pub content: DiffContent,
    /// As what that is printed.
    pub text: TextForm,
}

/// What a diff prints.
#[derive(Clone, Copy)]
pub enum DiffContent {
    /// The items that lead from the one zone to the other.
    Items(ItemForm),
    /// The questions that a server answers otherwise from the other zone.
    Answers,
}

/// Which items a diff prints.
#[derive(Clone, Copy)]
pub enum ItemForm {
    /// The operations alone.
    Bare,
    /// Before them prerequisites: that the record sets that they change are as in the old zone.
    Guarded(GuardScope),
}

/// What the prerequisites of a diff test.
#[derive(Clone, Copy)]
pub enum GuardScope {
    /// The record sets that change, and of a name that the old zone does not use that nobody uses it.
    Names,
    /// The record sets that change, and what would keep out a set that comes.
    Sets,
}

/// As what a plan is printed.
#[derive(Clone, Copy)]
pub enum PlanForm {
    /// Lines for a person.
    Lines(PlanLines),
    /// An object of JSON (RFC 8259), for a program.
    Object(PlanObject),
}

/// Which object a plan prints.
#[derive(Clone, Copy)]
pub enum PlanObject {
    /// The reply, and of an update that would be made the records that go and come.
    Reply,
    /// These, and the questions that a server answers otherwise then.
    Answers,
    /// The first, and what the policy decides of each item.
    Explained,
}

/// Which lines a plan prints.
#[derive(Clone, Copy)]
pub enum PlanLines {
    /// The reply, and of an update that would be made the records that go and come.
    Records,
    /// These, and the questions that a server answers otherwise then.
    Answers,
    /// What the policy decides of each item, and then these.
    Explained,
}

/// As how many bodies an update is printed.
#[derive(Clone, Copy)]
pub enum RequestForm {
    /// As one.
    Whole,
    /// As many as the limits of one update want.
    Split,
}

/// Which of the changes and receipts of a zone are printed.
#[derive(Clone, Copy)]
pub struct LogChoice<'a> {
    /// From which change on, where a number is given.
    pub from: Option<u64>,
    /// Within which name, where one is given.
    pub name: Option<&'a str>,
    /// Of which caller the receipts are, where one is given.
    pub caller: Option<&'a str>,
    /// As what they are printed.
    pub form: TextForm,
}

/// By which of the rules a zone is checked.
#[derive(Clone, Copy)]
pub enum RuleChoice<'a> {
    /// By all of them.
    All,
    /// By the rule of this word only.
    Only(&'a str),
    /// By all but the rule of this word.
    Not(&'a str),
}

/// Whether a check also reports what is no fault, but seldom meant: addresses that several names have.
#[derive(Clone, Copy)]
pub enum Advice {
    /// It is not.
    Unasked,
    /// It is.
    Wanted,
}

/// By what a zone is checked.
#[derive(Clone, Copy)]
pub struct ZoneRules<'a> {
    /// By which of the rules.
    pub choice: RuleChoice<'a>,
    /// The word of the server that has to mind a rule, where one is given.
    pub server: Option<&'a str>,
    /// How many records a set has at most, where that is given.
    pub most: Option<u64>,
    /// Whether addresses that several names have are reported.
    pub advice: Advice,
}

/// A zone of a store, as the words of `import`, `export`, `log`, `blame`, `undo` and `remove` name it.
#[derive(Clone, Copy)]
pub struct StoredZone<'a> {
    /// The path of the store.
    pub store: &'a str,
    /// The name of the zone's origin.
    pub origin: &'a str,
}

/// The master files of two zones of one origin. A path that is `-` is standard input, which words name once at most.
#[derive(Clone, Copy)]
pub struct ZoneFiles<'a> {
    /// The path of the zone as it is.
    pub old: &'a str,
    /// The path of the zone as it is to be.
    pub new: &'a str,
}

/// What becomes of a zone of a store when one of its origin is imported.
#[derive(Clone, Copy)]
pub enum Existing {
    /// It stays, and the import is refused.
    Kept,
    /// The one that is imported takes its place.
    Replaced,
}

/// What is asked of a policy.
#[derive(Clone, Copy)]
pub struct QuestionWords<'a> {
    /// Who asks.
    pub caller: &'a str,
    /// At which name.
    pub name: &'a str,
    /// Of which type the records are.
    pub record_type: &'a str,
    /// What is to be done with them.
    pub action: &'a str,
}

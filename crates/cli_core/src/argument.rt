//! What commands take after their word, in one table.

ghost use Rattle.std.specs.Prelude.{◌≡◌, false, Some};
ghost use Rattle.clap.specs.Words.{new_rule, rule_of};
ghost use Rattle.cli_core.specs.Commands.{argument_name, argument_form, rule_for, in_form};

use clap::{Arg, ArgAction};
use std::alloc::Global;

/// What a command takes after its word: an option, or a word in its place.
#[derive(Clone, Copy)]
pub enum Argument {
    Store,
    Policy,
    Origin,
    Caller,
    Name,
    Type,
    Action,
    Listen,
    ImportedOrigin,
    List,
    Replace,
    At,
    Changed,
    To,
    Relative,
    Connections,
    Patience,
    Longest,
    Memory,
    Number,
    Subject,
    CheckedPolicy,
    Against,
    Zones,
    Reader,
    CheckedOrigin,
    CheckedName,
    Isolated,
    Only,
    Not,
    Server,
    Most,
    Warn,
    Example,
    Source,
    SourceFile,
    Slice,
    Json,
    Guard,
    GuardSets,
    Answers,
    Explain,
    Old,
    New,
    Id,
    Split,
    Rest,
    Signer,
    Receipts,
    From,
    Within,
    Asker,
    File,
    AskedName,
    AskedType,
}

/// How an argument is written.
#[derive(Clone, Copy)]
pub enum Form {
    /// `--name VALUE`, which must be given.
    Needed,
    /// `--name N`, a number of 64 bits, which may be left out.
    Number,
    /// `--name`, which may be left out.
    Flag,
    /// `--name VALUE`, which may be left out.
    Optional,
    /// `--name VALUE`, which some jobs of its command need.
    Asked,
    /// A word in its place, which must be given.
    Place,
    /// A word in its place, which may be left out.
    OptionalPlace,
}

/// A row of the table of arguments.
struct Row {
    /// Its name.
    name: &'static str,
    /// How it is written.
    form: Form,
    /// What it is, for the help.
    help: &'static str,
}

impl Argument {
    /// The one table of arguments.
    const fn row(self) -> &'static Row
        ensures name { result.now.name.now ≡ argument_name self }
        ensures form { result.now.form ≡ argument_form self }
    {
        match self {
            Argument::Store => &Row {
                name: "store",
                form: Form::Needed,
                help: "The path of the store",
            },
            Argument::Policy => &Row {
                name: "policy",
                form: Form::Needed,
                help: "The path of the policy",
            },
            Argument::Origin => &Row {
                name: "origin",
                form: Form::Needed,
                help: "The zone's origin, an absolute name",
            },
            Argument::Caller => &Row {
                name: "caller",
                form: Form::Needed,
                help: "Who asks",
            },
            Argument::Name => &Row {
                name: "name",
                form: Form::Place,
                help: "At which name, an absolute one",
            },
            Argument::Type => &Row {
                name: "type",
                form: Form::Place,
                help: "Of which type the records are",
            },
            Argument::Action => &Row {
                name: "action",
                form: Form::Place,
                help: "list, check, add, delete or delegate",
            },
            Argument::Listen => &Row {
                name: "listen",
                form: Form::Needed,
                help: "The address and port to listen at",
            },
            Argument::ImportedOrigin => &Row {
                name: "origin",
                form: Form::Optional,
                help: "The zone's origin, an absolute name; this or --list is needed",
            },
            Argument::List => &Row {
                name: "list",
                form: Form::Optional,
                help: "The path of a list of zones, or - for standard input: a line ORIGIN FILE for each",
            },
            Argument::Replace => &Row {
                name: "replace",
                form: Form::Flag,
                help: "In the place of the zone there",
            },
            Argument::At => &Row {
                name: "at",
                form: Form::Number,
                help: "As it was after the change of this number, or with 0 as it was imported",
            },
            Argument::Changed => &Row {
                name: "change",
                form: Form::Number,
                help: "The number of the change to undo, the last one if left out",
            },
            Argument::To => &Row {
                name: "to",
                form: Form::Number,
                help: "Undo all changes from that one to this, that one only if left out",
            },
            Argument::Relative => &Row {
                name: "relative",
                form: Form::Flag,
                help: "Relative to the origin, with a $TTL line",
            },
            Argument::Connections => &Row {
                name: "connections",
                form: Form::Number,
                help: "After how many to end",
            },
            Argument::Patience => &Row {
                name: "patience",
                form: Form::Number,
                help: "Seconds to wait for a peer, 30 if left out",
            },
            Argument::Longest => &Row {
                name: "longest",
                form: Form::Number,
                help: "Seconds until a connection ends between requests, 60 if left out",
            },
            Argument::Memory => &Row {
                name: "memory",
                form: Form::Number,
                help: "MB of memory for zones that were asked for before, 256 if left out",
            },
            Argument::Number => &Row {
                name: "number",
                form: Form::OptionalPlace,
                help: "The number, as 29.19.1, or the code; all if left out",
            },
            Argument::Subject => &Row {
                name: "subject",
                form: Form::Place,
                help: "What to check: policy, expect, isolation, reach, rights or zone",
            },
            Argument::CheckedPolicy => &Row {
                name: "policy",
                form: Form::Asked,
                help: "The path of the policy; needed by all but zone",
            },
            Argument::Against => &Row {
                name: "against",
                form: Form::Optional,
                help: "The path of the policy as it is, to see what the other changes",
            },
            Argument::Zones => &Row {
                name: "zones",
                form: Form::Optional,
                help: "The path of a list of zones, or - for standard input, to check the policy beside them",
            },
            Argument::Reader => &Row {
                name: "reader",
                form: Form::Optional,
                help: "With --zones: a caller that is to list all of them, as publish does",
            },
            Argument::CheckedOrigin => &Row {
                name: "origin",
                form: Form::Asked,
                help: "The zone's origin; needed by zone and reach",
            },
            Argument::CheckedName => &Row {
                name: "name",
                form: Form::OptionalPlace,
                help: "Of rights the name, by scopes if left out; of expect and reach the file, or - for standard input",
            },
            Argument::Isolated => &Row {
                name: "caller",
                form: Form::Asked,
                help: "Whose isolation or reach; needed by isolation and reach",
            },
            Argument::Only => &Row {
                name: "only",
                form: Form::Optional,
                help: "The only rule, by the word that is printed of it: host-name, below-cut, dangling-alias and others",
            },
            Argument::Not => &Row {
                name: "not",
                form: Form::Optional,
                help: "The rule to leave out",
            },
            Argument::Server => &Row {
                name: "server",
                form: Form::Optional,
                help: "Only what this server refuses or warns of: bind, knot or nsd",
            },
            Argument::Most => &Row {
                name: "most",
                form: Form::Number,
                help: "Also record sets of more records than this, or of more than 65,000 octets",
            },
            Argument::Warn => &Row {
                name: "warn",
                form: Form::Flag,
                help: "Also addresses that several names have",
            },
            Argument::Example => &Row {
                name: "example",
                form: Form::Flag,
                help: "With each group of reach a question, and operations that change its answer",
            },
            Argument::Source => &Row {
                name: "source",
                form: Form::Place,
                help: "build, from groups and templates, or print, from a policy",
            },
            Argument::SourceFile => &Row {
                name: "file",
                form: Form::OptionalPlace,
                help: "The file of groups or the policy, standard input if left out",
            },
            Argument::Slice => &Row {
                name: "slice",
                form: Form::Optional,
                help: "Only the rules that can matter in zones: their origins, with spaces between them",
            },
            Argument::Json => &Row {
                name: "json",
                form: Form::Flag,
                help: "As JSON",
            },
            Argument::Guard => &Row {
                name: "guard",
                form: Form::Flag,
                help: "With prerequisites that nobody changed the sets",
            },
            Argument::GuardSets => &Row {
                name: "guard-sets",
                form: Form::Flag,
                help: "The same without tests of whole names; also --guard=sets",
            },
            Argument::Answers => &Row {
                name: "answers",
                form: Form::Flag,
                help: "Which questions a server answers otherwise after the change",
            },
            Argument::Explain => &Row {
                name: "explain",
                form: Form::Flag,
                help: "What the policy decides of each item, and by which rule",
            },
            Argument::Old => &Row {
                name: "old",
                form: Form::Place,
                help: "The file of the zone as it is, or - for standard input",
            },
            Argument::New => &Row {
                name: "new",
                form: Form::Place,
                help: "The file of the zone as it is to be, or -",
            },
            Argument::Id => &Row {
                name: "id",
                form: Form::Optional,
                help: "The identifier of the update; this or --split is needed",
            },
            Argument::Split => &Row {
                name: "split",
                form: Form::Optional,
                help: "Before the numbers of the updates, as many as the limits want",
            },
            Argument::Rest => &Row {
                name: "rest",
                form: Form::Flag,
                help: "The records of types that are not kept, but for those of a signer",
            },
            Argument::Signer => &Row {
                name: "signer",
                form: Form::Flag,
                help: "The records that a signer made: RRSIG, NSEC, DNSKEY and others",
            },
            Argument::Receipts => &Row {
                name: "receipts",
                form: Form::Flag,
                help: "With each change the updates that may have made it, by caller and identifier",
            },
            Argument::From => &Row {
                name: "from",
                form: Form::Number,
                help: "Only the changes from this number on",
            },
            Argument::Within => &Row {
                name: "name",
                form: Form::Optional,
                help: "Only what is at this name or below it",
            },
            Argument::Asker => &Row {
                name: "caller",
                form: Form::Optional,
                help: "Only the receipts of this caller",
            },
            Argument::File => &Row {
                name: "file",
                form: Form::Place,
                help: "The master file, or - for standard input",
            },
            Argument::AskedName => &Row {
                name: "name",
                form: Form::Place,
                help: "The name asked for, or - for a question on each line of standard input",
            },
            Argument::AskedType => &Row {
                name: "type",
                form: Form::OptionalPlace,
                help: "The type asked for, ANY, or TYPE and a number; A if left out",
            },
        }
    }

    /// Its name, which an option has after two hyphens.
    pub fn name(self) -> &'static str
        ensures { result.now ≡ argument_name self }
    {
        self.row().name
    }

    /// The argument as clap is told of it.
    pub(crate) fn rule<'a>(self, alloc: Global) -> Arg<'a>
        ensures rule { rule_of result ≡ rule_for self }
        ensures local { result.global ≡ false }
    {
        let row = self.row();
        let name: &'a str = row.name;
        let help: &'a str = row.help;
        in_form(alloc, name, help, row.form)
    }
}

/// An argument of a name, written in a form.
fn in_form<'a>(alloc: Global, name: &'a str, help: &'a str, form: Form) -> Arg<'a>
    ensures rule { rule_of result ≡ in_form form name.entry.now (new_rule name.entry.now) }
    ensures local { result.global ≡ false }
{
    match form {
        Form::Needed => option(alloc, name, help, ArgAction::Set).required(true),
        Form::Number => {
            option(alloc, name, help, ArgAction::Set).value_parser(clap::value_parser!(u64))
        }
        Form::Flag => option(alloc, name, help, ArgAction::SetTrue),
        Form::Optional | Form::Asked => option(alloc, name, help, ArgAction::Set),
        Form::Place => place(alloc, name, help).required(true),
        Form::OptionalPlace => place(alloc, name, help),
    }
}

/// An option that may be left out, and what clap does where it is given.
fn option<'a>(alloc: Global, name: &'a str, help: &'a str, action: ArgAction) -> Arg<'a>
    ensures rule { rule_of result ≡ record (new_rule name.entry.now) { long = Some name.entry.now; action = Some action } }
    ensures local { result.global ≡ false }
{
    Arg::new(alloc, name).long(name).help(help).action(action)
}

/// A word in its place, which may be left out.
fn place<'a>(alloc: Global, name: &'a str, help: &'a str) -> Arg<'a>
    ensures rule { rule_of result ≡ record (new_rule name.entry.now) { action = Some ArgAction.Set } }
    ensures local { result.global ≡ false }
{
    Arg::new(alloc, name).help(help).action(ArgAction::Set)
}

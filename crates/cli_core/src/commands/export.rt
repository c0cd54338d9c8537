//! The command `export`.

ghost use Rattle.cli_core.specs.declared.commands.Command.TheVariants as command;

use crate::argument::Argument;
use crate::commands::{CommandWords, Row};
use crate::job::{Job, StoreJob, StoredZone, ZoneForm};
use crate::matched::{number_at, zone_at, zone_form_at};
use clap::ArgMatches;

/// The words of `export`.
#[derive(Clone, Copy)]
pub struct Export<'a> {
    /// Which zone, and which store.
    pub zone: StoredZone<'a>,
    /// The number of the change after which the zone was as it is printed, and the zone as it is where none is given.
    pub at: Option<u64>,
    /// In which form it is printed.
    pub form: ZoneForm,
}

pub(super) static ROW: Row = Row {
    word: "export",
    about: "Prints a zone of a store",
    example: "Example: zoneoffice export --store office.db --origin example.org.",
    arguments: &[
        Argument::Store,
        Argument::Origin,
        Argument::At,
        Argument::Relative,
    ],
};

impl<'a> CommandWords<'a> for Export<'a> {
    ghost command = { command.Export };

    fn read(matches: &ArgMatches<'a>) -> Option<Job<'a>> {
        let zone = zone_at(matches)?;
        let at = number_at(matches, Argument::At)?;
        let form = zone_form_at(matches);
        Some(Job::Store(StoreJob::Export(Export { zone, at, form })))
    }
}

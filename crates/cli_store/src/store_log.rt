//! The job `log`: what a store has of a zone, printed.

ghost use Rattle.std.specs.Prelude.{◌≡◌, option_map};
ghost use Rattle.std.specs.Result.{result_map_both};
ghost use Rattle.sqlite.specs.Held.{state};
ghost use Rattle.cli_core.specs.LineFaults.{Gives};
ghost use Rattle.cli_store.specs.Stores.{stores_of};
ghost use Rattle.cli_store.specs.StoreLog.{log_asked, log_in, IsLogRead, IsTextOf, LogPrinted};

use crate::files::StoreFiles;
use crate::log_choice::LogAsked;
use crate::store_file::StorePath;
use crate::table_job::{TableJob, asked_by};
use crate::zone_log::log_text;
use crate::zones::report_octets;
use cli_checks::name_if;
use cli_core::{JobFault, LineFault, LogChoice, StoredZone, write_refusal};
use cli_text::{caller_if, read_name};
use dns_master::Sink;
use dns_names::Name;
use office_store::{SqlTable, StoreFault};
use sqlite::{Alter, Connection};
use std::alloc::Global;
use std::marker::Brand;
use std::sync::ledger::{Blank, Ledger};
use store_rows::KeptReceipt;
use zone_core::Change;

/// What a store has of a zone: its changes, and the receipts of the store.
#[derive(Drop)]
pub struct ZoneLog {
    pub changes: Vec<Change>,
    pub kept: Vec<KeptReceipt>,
}

/// What the words of a log ask for. The first refusal is that of the origin, of the name, or of the caller.
fn log_asked(alloc: Global, origin: &str, choice: LogChoice<'_>) -> Result<LogAsked, LineFault>
    ensures { Gives (λ asked. asked) result (log_asked origin.now choice.entry) }
{
    Ok(LogAsked {
        origin: read_name(alloc, origin)?,
        from: choice.from,
        name: name_if(alloc, choice.name)?,
        caller: caller_if(alloc, choice.caller)?,
        form: choice.form,
    })
}

/// What a store has of the zone of an origin.
#[derive(Drop)]
struct LogOf<'a>(&'a Name);

impl TableJob<ZoneLog> for LogOf<'_> {
    ghost does = { λ of now after result. IsLogRead of.0.now now after (result_map_both log_in (λ fault. fault) result) };

    fn run<S: Alter + Drop, L: Ledger>(
        &self,
        alloc: Global,
        table: &mut SqlTable<S, L>,
    ) -> Result<ZoneLog, StoreFault> {
        let Some(changes) = table.stored_changes(alloc, self.0)? else {
            return Err(StoreFault::NoZone);
        };
        let kept = table.receipts(alloc)?;
        Ok(ZoneLog { changes, kept })
    }
}

/// The text of what was read, or the fault that was met.
fn text_of(
    alloc: Global,
    asked: &LogAsked,
    read: Result<ZoneLog, StoreFault>,
) -> Result<Vec<u8>, LineFault>
    ensures { IsTextOf asked.now (result_map_both log_in (λ fault. fault) read) (result_map_both (λ text. text.items) (λ fault. fault) result) }
{
    let log = read?;
    Ok(log_text(alloc, asked, &log.changes, &log.kept)?)
}

/// Prints the changes of a zone of the store of a path, with their numbers, and the receipts of updates of it, as far as words ask for
/// them. Otherwise a line tells the refusal that comes first: of the origin, of the name, of the caller, of the store, or `NoZone`. The
/// connection to the store is handed back, if one was made.
pub fn log<W: Sink, S: Alter + Drop, P: StoreFiles<S> + Drop>(
    alloc: Global,
    files: P,
    stored: StoredZone<'_>,
    choice: LogChoice<'_>,
    writer: &mut W,
) -> (Option<Connection<S>>, Result<(), JobFault>)
    ensures { LogPrinted
        (stores_of (state S.Store) (P.finds files) (P.refuses files)
        (P.connects files)) stored.entry.store.now stored.entry.origin.now choice.entry result.0
        (W.contents writer.old) (W.contents writer.new) result.1 (W.failures writer.old) (W.failures writer.new) }
{
    match log_asked(alloc, stored.origin, choice) {
        Ok(asked) => {
            let (path, blank) = (StorePath(stored.store), Blank::new(1));
            let (conn, read) = asked_by::<S, Brand, P, _, _>(
                alloc,
                files,
                path,
                &LogOf(&asked.origin),
                blank,
            );
            (
                conn,
                report_octets(alloc, writer, text_of(alloc, &asked, read)),
            )
        }
        Err(fault) => (None, Err(write_refusal(alloc, writer, fault))),
    }
}

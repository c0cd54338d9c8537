//! The log of a store at the end of a command.

use crate::surroundings::Surroundings;
use office_model::TableFault;
use office_store::StoreFault;
use sqlite::{Connection, File, FileStore};
use wire_tcp::Cause;

/// Ends the connection to a store of this machine, if there is one: what its log has is copied into the database file, and both are closed.
/// If that fails it is said on standard error, and is no failure of the command: all is in the two files still.
pub fn fold_log<M: Surroundings>(around: &M, conn: Option<Connection<FileStore<File>>>) {
    let Some(conn) = conn else {
        return;
    };
    if let Err(fault) = conn.close() {
        complain(around, fault.into());
    }
}

/// Says on standard error that the log of a store could not be copied into its file, and why.
fn complain<M: Surroundings>(around: &M, fault: StoreFault) {
    let cause = Cause::of(TableFault::Store, Some(fault)).words();
    let line = format!(in around.alloc();
        "zoneoffice: the log of the store could not be copied into it because {cause}"
    );
    if let Ok(line) = line {
        around.say(line.as_str());
    }
}

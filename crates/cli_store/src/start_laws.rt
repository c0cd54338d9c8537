//! What holds of many starts of the program on one disk. The function does nothing: its contract is the law.

ghost use Rattle.sqlite.specs.Held.{state};
ghost use Rattle.cli_store.specs.Starts.{StartsHaveOneHistory, DeedsKeepReceipts, DeedsAreMadeOnce, ZonesBeginAnew};

use crate::files::StoreFiles;
use crate::surroundings::Surroundings;
use sqlite::Alter;

/// However often the program is started on one disk, whatever its words ask for, and however each start ends, by itself or by a crash at
/// any call of the disk, also while the store opens: there is one history of all requests that were answered on any connection, of all
/// zones that were imported, replaced or taken out, and of at most one of either in each start that told a failure. It is a run of the
/// machine, each answer is the one at its place, and it leads to the state that is on the disk.
///
/// Taken for granted are the path of the store and that nobody else writes there: each start finds what an open after a crash may find of
/// the one before it.
pub fn starts_have_one_history<M: Surroundings, S: Alter + Drop, P: StoreFiles<S> + Drop>()
    ensures history { StartsHaveOneHistory (record {
      around = M.around;
      callers = record { cut = M.Listener.cut; gives = M.Listener.gives; ends = M.Listener.ends; flow = M.Listener.Peer.flow; times = M.Listener.Peer.times };
      shows = state S.Store;
      finds = P.finds;
      refuses = P.refuses;
      connects = P.connects;
    }) }
    // Imports, replacements and removals lose no receipt, so a client that repeats an update until it is answered has it made once.
    ensures kept { DeedsKeepReceipts }
    ensures once { DeedsAreMadeOnce }
    // A zone that comes after one of its origin was taken out has nothing of that one.
    ensures anew { ZonesBeginAnew }
{}

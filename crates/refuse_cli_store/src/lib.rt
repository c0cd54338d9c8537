//! What the contracts of the commands over stores and sockets refuse. A function has the contract of the one of `cli_store` that it
//! calls; each edit in must-fail makes the call wrong in one idea, and the prover refuses it.
#![tactic(auto)]

pub mod caller;
pub mod callers;
pub mod listeners;

ghost use Rattle.std.specs.Prelude.{◌≡◌, ◌+◌, List, Option, IfOk, IfErr, length, map, string_bytes};
ghost use Rattle.std.specs.declared.net.socket_addr.SocketAddr.{SocketAddr};
ghost use Rattle.std.specs.Process.{exit_status};
ghost use Rattle.sqlite.specs.Held.{state};
ghost use Rattle.cli_store.specs.Stores.{stores_of};
ghost use Rattle.cli_store.specs.Program.{JobEnds, WordsEnd};
ghost use Rattle.cli_store.specs.Serve.{IsHeard, IsNoListener, listening_line};

use cli_core::{Job, StoreJob};
use cli_store::{JobFault, LineFault, StoreFiles, Surroundings};
use dns_master::{Sink, Source};
use sqlite::{Alter, Connection};
use std::process::ExitCode;

/// `do_job`.
pub fn do_job<
    M: Surroundings,
    S: Alter + Drop,
    P: StoreFiles<S> + Drop,
    R: Source,
    W: Sink,
    E: Sink,
>(
    around: &M,
    files: P,
    job: Job<'_>,
    input: &mut R,
    output: &mut W,
    trace: &mut E,
) -> (Option<Connection<S>>, ExitCode)
    ensures { JobEnds (M.around around.now)
        (record { cut = M.Listener.cut; gives = M.Listener.gives; ends = M.Listener.ends; flow = M.Listener.Peer.flow; times = M.Listener.Peer.times })
        (stores_of (state S.Store) (P.finds files) (P.refuses files) (P.connects files))
        (record { left = R.remaining input.old; rest = R.remaining input.new; before = R.failures input.old; after = R.failures input.new })
        (record { old = W.contents output.old; new = W.contents output.new; before = W.failures output.old; after = W.failures output.new })
        (record { old = E.contents trace.old; new = E.contents trace.new; before = E.failures trace.old; after = E.failures trace.new }) job.entry result.0
        (exit_status result.1) }
{
    cli_store::do_job(around, files, job, input, output, trace)
}

/// `do_words`.
pub fn do_words<
    M: Surroundings,
    S: Alter + Drop,
    P: StoreFiles<S> + Drop,
    R: Source,
    W: Sink,
    E: Sink,
>(
    around: &M,
    files: P,
    words: &[&str],
    input: &mut R,
    output: &mut W,
    trace: &mut E,
) -> (Option<Connection<S>>, ExitCode)
    ensures { WordsEnd (M.around around.now)
        (record { cut = M.Listener.cut; gives = M.Listener.gives; ends = M.Listener.ends; flow = M.Listener.Peer.flow; times = M.Listener.Peer.times })
        (stores_of (state S.Store) (P.finds files) (P.refuses files) (P.connects files))
        (record { left = R.remaining input.old; rest = R.remaining input.new; before = R.failures input.old; after = R.failures input.new })
        (record { old = W.contents output.old; new = W.contents output.new; before = W.failures output.old; after = W.failures output.new })
        (record { old = E.contents trace.old; new = E.contents trace.new; before = E.failures trace.old; after = E.failures trace.new })
        (map (λ s. s.now) words.now) result.0 (exit_status result.1) }
{
    cli_store::do_words(around, files, words, input, output, trace)
}

/// `listening_at`.
pub fn listening_at<M: Surroundings>(
    around: &M,
    listen: &str,
) -> Result<(M::Listener, String), LineFault>
    ensures told { IfOk result
        (λ listening. (address : SocketAddr) × IsHeard (M.around around.now) listen.now listening.0 address × (string_bytes listening.1 ≡ listening_line address)) }
    ensures refused { IfErr result (IsNoListener (M.around around.now) listen.now) }
{
    cli_store::listening_at(around, listen)
}

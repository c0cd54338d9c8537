//! Words of the command line over streams of std.

ghost use Rattle.std.specs.Prelude.{◌≡◌, ◌<◌, map};
ghost use Rattle.std.specs.Process.{exit_status};
ghost use Rattle.sqlite.specs.Held.{state};
ghost use Rattle.cli_store.specs.Stores.{stores_of};
ghost use Rattle.cli_store.specs.Program.{IsRun};

use crate::files::StoreFiles;
use crate::hints::tell_hints;
use crate::kept_files::KeptFiles;
use crate::kept_input::KeptInput;
use crate::program::do_words;
use crate::surroundings::Surroundings;
use dns_master::Counted;
use sqlite::{Alter, Connection};
use std::io::{Read, Write};
use std::marker::Brand;
use std::process::ExitCode;
use std::sync::ledger::{Blank, Ledger};

/// The streams of the process.
#[derive(Drop)]
pub struct Streams<I, O, E> {
    /// Standard input.
    pub input: I,
    /// Standard output.
    pub output: O,
    /// Standard error, on which a service says why requests failed.
    pub trace: E,
}

/// What is left once words have ended: the connection to the store that they reached, if they reached one, the streams, and the exit
/// status.
type Left<S, I, O, E> = (Option<Connection<S>>, Streams<I, O, E>, ExitCode);

/// Does what words ask for with streams, whose failures are counted from none on.
fn run_counted<
    M: Surroundings,
    S: Alter + Drop,
    P: StoreFiles<S> + Drop,
    I: Read + Drop,
    O: Write + Drop,
    E: Write + Drop,
    A: Ledger,
    B: Ledger,
    C: Ledger,
>(
    around: &M,
    files: P,
    words: &[&str],
    streams: Streams<I, O, E>,
    reads: Blank,
    writes: Blank,
    traces: Blank,
) -> Left<S, I, O, E>
    requires reads_name { reads.name ≡ A.name }
    requires reads_parts { reads.parts ≡ A.parts }
    requires reads_some { 0 < reads.parts }
    requires writes_name { writes.name ≡ B.name }
    requires writes_parts { writes.parts ≡ B.parts }
    requires writes_some { 0 < writes.parts }
    requires traces_name { traces.name ≡ C.name }
    requires traces_parts { traces.parts ≡ C.parts }
    requires traces_some { 0 < traces.parts }
    ensures { IsRun (M.around around.now)
        (record { cut = M.Listener.cut; gives = M.Listener.gives; ends = M.Listener.ends; flow = M.Listener.Peer.flow; times = M.Listener.Peer.times })
        (stores_of (state S.Store) (P.finds files) (P.refuses files) (P.connects files)) result.0
        (I.remaining streams.input) (I.remaining result.1.input) (O.contents streams.output) (O.contents result.1.output)
        (E.contents streams.trace) (E.contents result.1.trace) (map (λ s. s.now) words.now) (exit_status result.2) }
{
    let Streams {
        input,
        output,
        trace,
    } = streams;
    let mut input: Counted<I, A> = Counted::new(input, reads);
    let mut output: Counted<O, B> = Counted::new(output, writes);
    let mut trace: Counted<E, C> = Counted::new(trace, traces);
    let (conn, status) = do_words(around, files, words, &mut input, &mut output, &mut trace);
    let streams = Streams {
        input: input.into_inner(),
        output: output.into_inner(),
        trace: trace.into_inner(),
    };
    (conn, streams, status)
}

/// Does what words ask for with streams of std, says what else is known of a refused master file, and hands back the connection to the
/// store that it reached, if it reached one, and the streams.
pub fn run_words<
    M: Surroundings,
    S: Alter + Drop,
    P: StoreFiles<S> + Drop,
    I: Read + Drop,
    O: Write + Drop,
    E: Write + Drop,
>(around: &M, files: P, words: &[&str], streams: Streams<I, O, E>) -> Left<S, I, O, E>
    // It ends as `do_words` does, with these words, each stream in its own place.
    ensures { IsRun (M.around around.now)
        (record { cut = M.Listener.cut; gives = M.Listener.gives; ends = M.Listener.ends; flow = M.Listener.Peer.flow; times = M.Listener.Peer.times })
        (stores_of (state S.Store) (P.finds files) (P.refuses files) (P.connects files)) result.0
        (I.remaining streams.input) (I.remaining result.1.input) (O.contents streams.output) (O.contents result.1.output)
        (E.contents streams.trace) (E.contents result.1.trace) (map (λ s. s.now) words.now) (exit_status result.2) }
{
    let Streams {
        input,
        output,
        trace,
    } = streams;
    let streams = Streams {
        input: KeptInput::new(around.alloc(), input),
        output,
        trace,
    };
    let kept = KeptFiles::new(around.alloc(), around);
    let (reads, writes, traces) = (Blank::new(1), Blank::new(1), Blank::new(1));
    let (conn, streams, status) = run_counted::<_, S, P, _, _, _, Brand, Brand, Brand>(
        &kept, files, words, streams, reads, writes, traces,
    );
    let Streams {
        input,
        output,
        trace,
    } = streams;
    let (input, beginning) = input.into_parts();
    tell_hints(around, words, &kept.into_files(), &beginning, status);
    let streams = Streams {
        input,
        output,
        trace,
    };
    (conn, streams, status)
}

//! For how long a peer is waited for, and how old a connection gets.

ghost use Rattle.std.specs.Prelude.{◌≡◌, ◌*◌, option_map};
ghost use Rattle.std.specs.Duration.{as_nanos};
ghost use Rattle.wire_tcp.specs.Limits.{seconds_in, patience_in, longest_in};

use std::time::Duration;

/// For how many seconds a peer is waited for, where nothing else is said.
const PATIENCE: u64 = 30;

/// How many seconds old a connection gets, where nothing else is said.
const LONGEST: u64 = 60;

/// The most seconds, some thirty years: sockets are asked for them.
const SECONDS_MAX: u64 = 1_000_000_000;

/// A number of seconds, and the usual one where none is given; 0 sets no limit.
fn limit_of(seconds: Option<u64>, usual: u64) -> Option<Duration>
    ensures { option_map as_nanos result ≡ option_map (λ n. n * 1_000_000_000) (seconds_in usual seconds) }
{
    match seconds {
        None => Some(Duration::from_secs(usual)),
        Some(0) => None,
        Some(seconds) => Some(Duration::from_secs(seconds.min(SECONDS_MAX))),
    }
}

/// For how long a peer is waited for: the number of seconds, and 30 where none is given; 0 sets no limit.
pub fn patience_of(seconds: Option<u64>) -> Option<Duration>
    ensures { option_map as_nanos result ≡ option_map (λ n. n * 1_000_000_000) (patience_in seconds) }
{
    limit_of(seconds, PATIENCE)
}

/// At what age a connection ends between two requests: the number of seconds, and 60 where none is given; 0 sets no limit.
pub fn longest_of(seconds: Option<u64>) -> Option<Duration>
    ensures { option_map as_nanos result ≡ option_map (λ n. n * 1_000_000_000) (longest_in seconds) }
{
    limit_of(seconds, LONGEST)
}

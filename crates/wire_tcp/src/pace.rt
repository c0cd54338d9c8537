//! For how long a peer is waited for: the deadline that runs, and the age of the connection.

ghost use Rattle.std.specs.Prelude.{◌≡◌, ◌||◌, option_map};
ghost use Rattle.std.specs.Duration.{as_nanos};
ghost use Rattle.wire_tcp.specs.Limits.{IsWithin};
ghost use Rattle.wire_tcp.specs.Waits.{between, less, reading, writing};
ghost use Rattle.wire_tcp.specs.Ages.{is_spent};
ghost use Rattle.wire_tcp.specs.Deadlines.{deadline_of, during, after, IsInTime};

use std::time::Duration;

/// When something began, unless the clock failed, and how long it is to last, where there is a limit.
#[derive(Clone, Copy)]
pub(crate) struct Age {
    /// The time since some start.
    pub(crate) begun: Option<Duration>,
    pub(crate) longest: Option<Duration>,
}

impl Age {
    /// What is left of the time, where there is a limit: nothing where the clock failed.
    pub(crate) fn left(self, now: Option<Duration>) -> Option<Duration>
        ensures { option_map as_nanos result ≡ less (option_map as_nanos self.longest) (between (option_map as_nanos self.begun) (option_map as_nanos now)) }
    {
        less(self.longest, between(self.begun, now))
    }

    /// Whether nothing is left of the time, now or before.
    pub(crate) fn is_over(self, before: bool, now: Option<Duration>) -> bool
        ensures { result ≡ before || is_spent (less (option_map as_nanos self.longest) (between (option_map as_nanos self.begun) (option_map as_nanos now))) }
    {
        match self.left(now) {
            Some(left) => before || left.is_zero(),
            None => before,
        }
    }
}

/// For how long a peer is waited for that has connected, where there is a limit.
#[derive(Clone, Copy)]
pub(crate) struct Pace {
    /// For how long until a request begins, until the rest of it has come, and until its response is taken.
    pub(crate) patience: Option<Duration>,
    /// The age of the connection, beyond which no request after the first is waited for.
    pub(crate) age: Age,
}

/// What a peer is waited for.
#[derive(Clone, Copy)]
pub(crate) enum Awaited {
    /// That the first request begins.
    First,
    /// That another request begins.
    Next,
    /// That the rest of a request comes.
    Rest,
    /// That responses are taken.
    Taking,
}

/// What a peer is waited for, and how much of the time for it is left, where there is a limit.
#[derive(Clone, Copy)]
pub(crate) struct Running {
    pub(crate) awaited: Awaited,
    pub(crate) left: Option<Duration>,
}

/// The time between two readings of a clock, where both could be had: none where the clock went back.
pub(crate) fn between(begun: Option<Duration>, ended: Option<Duration>) -> Option<Duration>
    ensures { option_map as_nanos result ≡ between (option_map as_nanos begun) (option_map as_nanos ended) }
{
    match (begun, ended) {
        (Some(begun), Some(ended)) => Some(ended.saturating_sub(begun)),
        _ => None,
    }
}

/// What is left of a time, where there is a limit, once so much of it is spent: nothing where that is not known.
pub(crate) fn less(time: Option<Duration>, spent: Option<Duration>) -> Option<Duration>
    ensures { option_map as_nanos result ≡ less (option_map as_nanos time) (option_map as_nanos spent) }
{
    match (time, spent) {
        (None, _) => None,
        (Some(time), Some(spent)) => Some(time.saturating_sub(spent)),
        (Some(_), None) => Some(Duration::ZERO),
    }
}

/// The shorter of two times, where each may have no limit.
pub(crate) fn shorter(a: Option<Duration>, b: Option<Duration>) -> Option<Duration>
    ensures first { IsWithin (option_map as_nanos a) (option_map as_nanos result) }
    ensures second { IsWithin (option_map as_nanos b) (option_map as_nanos result) }
{
    match (a, b) {
        (Some(a), Some(b)) => Some(a.min(b)),
        (Some(a), None) => Some(a),
        (None, b) => b,
    }
}

impl Running {
    /// The deadline that runs while a read waits: after something was written it awaits the next request.
    pub(crate) fn while_reading(self, patience: Option<Duration>) -> Running
        ensures { deadline_of result ≡ during (option_map as_nanos patience) self.awaited (option_map as_nanos self.left) reading }
    {
        match self.awaited {
            Awaited::Taking => Running {
                awaited: Awaited::Next,
                left: patience,
            },
            Awaited::First | Awaited::Next | Awaited::Rest => self,
        }
    }

    /// The deadline that runs while a write waits.
    pub(crate) fn while_writing(self, patience: Option<Duration>) -> Running
        ensures { deadline_of result ≡ during (option_map as_nanos patience) self.awaited (option_map as_nanos self.left) writing }
    {
        match self.awaited {
            Awaited::Taking => self,
            Awaited::First | Awaited::Next | Awaited::Rest => Running {
                awaited: Awaited::Taking,
                left: patience,
            },
        }
    }

    /// The deadline that runs after a wait that took so long. Where a request has begun, it is to come whole.
    pub(crate) fn after(
        self,
        spent: Option<Duration>,
        done: bool,
        patience: Option<Duration>,
    ) -> Running
        ensures { deadline_of result ≡ after (option_map as_nanos patience) self.awaited (option_map as_nanos self.left) done (option_map as_nanos spent) }
    {
        match (self.awaited, done) {
            (Awaited::First | Awaited::Next, true) => Running {
                awaited: Awaited::Rest,
                left: patience,
            },
            (awaited, _) => Running {
                awaited,
                left: less(self.left, spent),
            },
        }
    }
}

impl Pace {
    /// How long a read or a write may wait that begins now.
    pub(crate) fn limit(self, running: Running, now: Option<Duration>) -> Option<Duration>
        ensures left { IsWithin (option_map as_nanos running.left) (option_map as_nanos result) }
        ensures young { IsInTime (option_map as_nanos self.age.longest) (option_map as_nanos self.age.begun) running.awaited (option_map as_nanos now) (option_map as_nanos result) }
    {
        match running.awaited {
            Awaited::Next => shorter(running.left, self.age.left(now)),
            Awaited::First | Awaited::Rest | Awaited::Taking => running.left,
        }
    }
}

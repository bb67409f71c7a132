//! When the loop does what it does from time to time.

ghost use Rattle.std.specs.Prelude.{◌≡◌, false};

/// The time of the loop's last turn, and what is due when, in milliseconds.
#[derive(Clone, Copy, Debug, PartialEq, Eq)]
pub struct Schedule {
    /// The time of the last turn. It passes as the clock does, but a turn counts as a quarter of a second at most, so
    /// that a long one makes nobody idle.
    pub time: u64,
    /// What the transport's clock said at the last turn.
    pub clock: u64,
    /// The time from which on the idle timeouts are checked again.
    pub next_check: u64,
    /// What the clock says once the files are polled again.
    pub next_poll: u64,
    /// Whether something may be done at once, so that the next turn does not wait.
    pub is_busy: bool,
}

impl Schedule {
    /// Before the first turn, when everything is due.
    pub fn new() -> Schedule
        ensures { result ≡ record { time = 0; clock = 0; next_check = 0; next_poll = 0; is_busy = false } }
    {
        Schedule {
            time: 0,
            clock: 0,
            next_check: 0,
            next_poll: 0,
            is_busy: false,
        }
    }
}

//! The log of a source: each state is tried before it is published, and then it is done or given up.
use crate::snapshot::Snapshot;
use crate::state::State;
use logbook::Plain;
use round_log::RoundLog;

/// An entry of the log. No value of it is made.
pub struct Attempt {
    pub state: State,
    pub done: bool,
}

/// A state is tried, or given up.
pub struct Tries;

impl Plain<Snapshot, Attempt, u64> for Tries {
    ghost use Rattle.std.specs.Prelude.{None, false};

    ghost ask = { λ s. record { state = s; done = false } };

    ghost state = { λ s. None };
}

/// The state that was tried last is done.
pub struct Finishes;

impl Plain<Snapshot, Attempt, u64> for Finishes {
    ghost use Rattle.std.specs.Prelude.{None, true};

    ghost ask = { λ s. record { state = s; done = true } };

    ghost state = { λ s. None };
}

/// The source's log has come so far.
pub type Token = round_log::Token<Attempt>;

/// The source's end of its log.
pub type SourceLog = RoundLog<Attempt>;

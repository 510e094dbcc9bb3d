//! The rule of the log's book, what its two steps tell, and what its tokens say of each other.
ghost use Rattle.std.specs.Prelude.{◌≡◌, ◌≤◌, length};
ghost use mathlib.Core.List.{IsPrefix};

use logbook::{Gain, Play, Rule, Seen};

/// The rule: one word holds the length of the log, and a cell is away exactly while a round goes on.
pub struct Law;

impl<E> Rule<E, u64> for Law {
    ghost use Rattle.std.specs.Prelude.{[]};
    ghost use base.Fml.{ftrue};
    ghost use Rattle.round_log.specs.Rounds.{IsKept};

    ghost holds = { λ cells log. IsKept cells log };

    ghost first = { [] };

    ghost hinted = { λ n log. Unit {0} };

    ghost shows = { λ log. [] };

    ghost keeps = { λ names log. ftrue };

    ghost moves = { λ ask before after answer. Unit {0} };
}

/// Clients of the book trade nothing.
pub struct NoGain;

impl<E> Gain<E, u64> for NoGain {
    ghost use base.Fml.{ftrue};

    ghost after = { λ names about answer. ftrue };
}

/// The step that begins a round.
pub struct Begun;

impl<E> Play<E, u64> for Begun {
    ghost use Rattle.round_log.specs.Rounds.{Begins};

    ghost then = { Begins };
}

/// The step that ends a round.
pub struct Ended;

impl<E> Play<E, u64> for Ended {
    ghost use Rattle.round_log.specs.Rounds.{Adds};

    ghost then = { Adds };
}

/// The log had these entries at some time. It has no bytes and can be copied, shared and kept.
pub type Token<E> = Seen<E, u64, Law>;

/// Of two tokens of one log, the shorter begins the longer. This takes no step.
pub fn compare_tokens<E>(one: &Token<E>, other: &Token<E>)
    requires { one.now.book ≡ other.now.book }
    ensures first { length one.now.log ≤ length other.now.log → IsPrefix one.now.log other.now.log }
    ensures second { length other.now.log ≤ length one.now.log → IsPrefix other.now.log one.now.log }
{
    let mut both = one.again();
    both.learn(other);
}

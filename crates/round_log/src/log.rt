//! The owner's end of a log, and a round of it.
ghost use Rattle.std.specs.Prelude.{◌≡◌, ◌∷◌, ◌++◌, [], length, IfSome};

use crate::rule::{Begun, Ended, Law, NoGain, Token};
use logbook::{Offer, Pen, Plain, Seen, Start, Word};
use std::marker::Model;

/// The owner's end of a log. Contracts see which log it is and its entries when its last round ended.
#[derive(Drop)]
pub struct RoundLog<E> {
    counter: Word<E, u64, Law>,
    seen: Token<E>,
    length: u64,
}

impl<E> Model for RoundLog<E> {
    ghost use Rattle.round_log.specs.Logged.{Logged, logged, logged_code};
    ghost use Rattle.round_log.specs.Rounds.{IsBetweenRounds};

    ghost Value = { Logged E };

    ghost coded = { logged_code E.code };

    ghost view = { λ l. logged l.seen.book l.seen.log };

    ghost invariant = { λ l. IsBetweenRounds l.counter l.seen.book l.seen.log l.length };
}

/// A round that has begun. Contracts see the log with the round's first entry as its last.
#[derive(Drop)]
pub struct Trial<E> {
    pen: Pen,
    seen: Token<E>,
    length: u64,
}

impl<E> Model for Trial<E> {
    ghost use Rattle.round_log.specs.Logged.{Logged, logged, logged_code};
    ghost use Rattle.round_log.specs.Rounds.{IsInRound};

    ghost Value = { Logged E };

    ghost coded = { logged_code E.code };

    ghost view = { λ t. logged t.seen.book t.seen.log };

    ghost invariant = { λ t. IsInRound t.pen.book t.pen.nib t.seen.book t.seen.log t.length };
}

impl<E> RoundLog<E> {
    /// Opens a log without entries.
    pub fn open() -> RoundLog<E>
        ensures { result.entries ≡ [] }
    {
        let (seen, mut first, _second) = Seen::open(Start::alone(), 0, 0);
        RoundLog {
            counter: Word::tracked(0, &mut first),
            seen,
            length: 0,
        }
    }

    /// Begins a round with the entry that `M` makes of `about`.
    ///
    /// `None` where another round of this log goes on or was dropped without an end, and after 2^63 - 1 rounds. No clause can tell of either.
    pub fn begin<X, M: Plain<X, E, u64>>(&self, about: &X) -> Option<Trial<E>>
        ensures same { IfSome result (λ trial. trial.book ≡ self.now.book) }
        ensures begun { IfSome result (λ trial. trial.entries ≡ self.now.entries ++ M.ask about.now ∷ []) }
    {
        let length = self.length;
        if length >= u64::MAX - 1 {
            return None;
        }
        let mut seen = self.seen.again();
        let mut offer: Offer<E, u64, Law, NoGain> = seen.plain::<NoGain, X, M>(about);
        let mut pen = seen.no_pen();
        let found = self
            .counter
            .compare_exchange::<Begun, NoGain>(length, length + 1, &mut seen, &mut offer, &mut pen);
        if found != length {
            return None;
        }
        // The pen's word is never read: while it isn't home, nobody else can take a step.
        let _word: Word<E, u64, Law> = Word::tracked(0, &mut pen);
        Some(Trial {
            pen,
            seen,
            length: length + 1,
        })
    }

    /// Ends the round with the entry that `M` makes of `about`. This is never refused.
    pub fn end<X, M: Plain<X, E, u64>>(&mut self, trial: Trial<E>, about: &X)
        requires { trial.book ≡ self.old.book }
        ensures same { self.new.book ≡ self.old.book }
        ensures ended { self.new.entries ≡ trial.entries ++ M.ask about.now ∷ [] }
    {
        let Trial {
            mut pen,
            mut seen,
            length,
        } = trial;
        let mut offer: Offer<E, u64, Law, NoGain> = seen.plain::<NoGain, X, M>(about);
        self.counter
            .compare_exchange::<Ended, NoGain>(length, length + 1, &mut seen, &mut offer, &mut pen);
        self.seen = seen;
        self.length = length + 1;
    }

    /// A token of the log as it was when its last round ended.
    pub fn token(&self) -> Token<E>
        ensures same { result.book ≡ self.now.book }
        ensures entries { result.log ≡ self.now.entries }
    {
        self.seen.again()
    }

    /// How many entries it had when its last round ended.
    pub fn entry_count(&self) -> u64
        ensures { result ≡ length self.now.entries }
    {
        self.length
    }
}

impl<E> Trial<E> {
    /// A token of the log with the round's first entry.
    pub fn token(&self) -> Token<E>
        ensures same { result.book ≡ self.now.book }
        ensures entries { result.log ≡ self.now.entries }
    {
        self.seen.again()
    }

    /// How many entries the log has with the round's first one.
    pub fn entry_count(&self) -> u64
        ensures { result ≡ length self.now.entries }
    {
        self.length
    }
}

//! A state with its place in the source's list: as it is published, and once it is done.
ghost use Rattle.std.specs.Prelude.{◌≡◌, ◌∷◌, ◌++◌, [], IfOk, MatchBool};
ghost use Rattle.identity_source.specs.Attempts.{committed, IsMark, IsPublished};
ghost use Rattle.identity_source.specs.History.{StartsWith, EndsWith, IsHistory};
ghost use Rattle.identity_source.specs.NamedList.{named_list};

use crate::attempt::Token;
use crate::error::SourceError;
use crate::snapshot::Snapshot;
use left_right::Absorb;
use round_log::compare_tokens;
use std::alloc::AllocError;
use std::marker::Model;

/// A state that was tried. Contracts see the list that ends in it, which a token of the log knows.
#[derive(Drop)]
pub struct Published {
    snapshot: Snapshot,
    tried: Token,
    length: u64,
}

impl Model for Published {
    ghost use Rattle.std.specs.Prelude.{◌∷◌, ◌++◌, []};
    ghost use Rattle.identity_source.specs.Attempts.{committed, IsPublished};
    ghost use Rattle.identity_source.specs.NamedList.{NamedList, named_list};

    ghost Value = { NamedList };

    ghost view = { λ p. named_list p.tried.book (committed p.tried.log ++ p.snapshot ∷ []) };

    ghost invariant = { λ p. IsPublished p.tried.log p.snapshot p.length };
}

/// A list whose last state is done. It has no state in it, but its place.
#[derive(Drop)]
pub struct Mark {
    done: Token,
    length: u64,
}

impl Model for Mark {
    ghost use Rattle.identity_source.specs.State.{PlainState};
    ghost use Rattle.identity_source.specs.Attempts.{committed, IsMark};
    ghost use Rattle.identity_source.specs.NamedList.{NamedList, named_list};

    ghost Value = { NamedList };

    ghost view = { λ m. named_list m.done.book (committed m.done.log) };

    ghost invariant = { λ m. (x : PlainState) × IsMark m.done.log x m.length };
}

impl Published {
    pub(crate) fn new(snapshot: Snapshot, tried: Token, length: u64) -> Published
        requires { IsPublished tried.log snapshot length }
        ensures { result ≡ named_list tried.book (committed tried.log ++ snapshot ∷ []) }
    {
        Published {
            snapshot,
            tried,
            length,
        }
    }

    pub(crate) fn try_clone(&self) -> Result<Published, SourceError>
        ensures { IfOk result (λ p. p ≡ self.now) }
    {
        Ok(Published {
            snapshot: self.snapshot.try_clone()?,
            tried: self.tried.again(),
            length: self.length,
        })
    }

    pub(crate) fn into_snapshot(self) -> Snapshot
        ensures last { EndsWith self.list result }
        ensures history { IsHistory self.list }
    {
        let Self {
            snapshot,
            tried: _,
            length: _,
        } = self;
        snapshot
    }

    /// Whether the list is known to begin with the mark's.
    pub(crate) fn covers(&self, mark: &Mark) -> bool
        requires { mark.now.name ≡ self.now.name }
        ensures { MatchBool result (StartsWith self.now.list mark.now.list) (Unit {0}) }
    {
        compare_tokens(&self.tried, &mark.done);
        mark.length <= self.length
    }
}

impl Mark {
    /// Takes the log up to where the state is done, and its length up to where it was tried.
    pub(crate) fn new(done: Token, length: u64, _state: &Snapshot) -> Mark
        requires { IsMark done.log _state.now length }
        ensures { result ≡ named_list done.book (committed done.log) }
    {
        Mark { done, length }
    }

    pub(crate) fn again(&self) -> Mark
        ensures { result ≡ self.now }
    {
        Mark {
            done: self.done.again(),
            length: self.length,
        }
    }

    /// Whether the list begins with the other's. If it does not, the other begins with it.
    pub(crate) fn covers(&self, other: &Mark) -> bool
        requires { other.now.name ≡ self.now.name }
        ensures { MatchBool result (StartsWith self.now.list other.now.list) (StartsWith other.now.list self.now.list) }
    {
        compare_tokens(&self.done, &other.done);
        other.length <= self.length
    }
}

impl Absorb<Published> for Published {
    type State = Published;

    ghost state = { λ p. p };

    ghost applied = { λ _ next. next };

    fn absorb_first(&mut self, next: &Published, _other: &Published) -> Result<(), AllocError> {
        let Ok(next) = next.try_clone() else {
            return Err(AllocError);
        };
        *self = next;
        Ok(())
    }

    fn absorb_second(&mut self, next: Published, _other: &Published) -> Result<(), Published> {
        *self = next;
        Ok(())
    }
}

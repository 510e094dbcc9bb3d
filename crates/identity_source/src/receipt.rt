//! Receipts.
ghost use Rattle.std.specs.Prelude.{◌≡◌, IfOk, MatchBool};
ghost use Rattle.identity_source.specs.History.{EndsWith, IsHistory, StartsWith, first_revision, last_revision};
ghost use Rattle.identity_source.specs.NamedList.{IsListed};

use crate::error::SourceError;
use crate::published::Mark;
use crate::snapshot::Snapshot;
use std::marker::Model;

/// Proof of a list of a source, with its last state. Tell it to a reader of the same source, on any thread and at any
/// time: the reader then answers from this place or later.
#[derive(Drop)]
pub struct Receipt {
    mark: Mark,
    snapshot: Snapshot,
}

impl Model for Receipt {
    ghost use Rattle.identity_source.specs.History.{EndsWith};
    ghost use Rattle.identity_source.specs.NamedList.{NamedList, IsListed};

    ghost Value = { NamedList };

    ghost view = { λ r. r.mark };

    ghost invariant = { λ r. EndsWith r.mark.list r.snapshot × IsListed r.mark };
}

impl Receipt {
    pub(crate) fn new(mark: Mark, snapshot: Snapshot) -> Receipt
        requires last { EndsWith mark.list snapshot }
        requires listed { IsListed mark }
        ensures { result ≡ mark }
    {
        Receipt { mark, snapshot }
    }

    pub(crate) fn try_clone(&self) -> Result<Receipt, SourceError>
        ensures { IfOk result (λ r. r ≡ self.now) }
    {
        Ok(Receipt {
            mark: self.mark.again(),
            snapshot: self.snapshot.try_clone()?,
        })
    }

    pub(crate) fn into_parts(self) -> (Mark, Snapshot)
        ensures mark { result.0 ≡ self }
        ensures last { EndsWith self.list result.1 }
        ensures listed { IsListed self }
    {
        let Self { mark, snapshot } = self;
        (mark, snapshot)
    }

    /// Its place in the source's list.
    pub(crate) fn mark(&self) -> Mark
        ensures { result ≡ self.now }
    {
        self.mark.again()
    }

    /// The revision of the last state.
    pub fn revision(&self) -> u64
        ensures last { result ≡ last_revision self.now.list }
        ensures history { IsHistory self.now.list }
        ensures named { first_revision self.now.list ≡ self.now.name.first }
    {
        let _ = &self.mark;
        self.snapshot.revision()
    }

    /// The last state.
    pub fn snapshot(&self) -> &Snapshot
        ensures { EndsWith self.now.list result.now }
    {
        &self.snapshot
    }

    /// Of two receipts of one source, whether this one's list begins with the other's. If it does not, the other's begins with it.
    pub fn covers(&self, other: &Receipt) -> bool
        requires { other.now.name ≡ self.now.name }
        ensures { MatchBool result (StartsWith self.now.list other.now.list) (StartsWith other.now.list self.now.list) }
    {
        let _ = &self.snapshot;
        self.mark.covers(&other.mark)
    }
}

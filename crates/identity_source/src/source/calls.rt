//! What the source does.
ghost use Rattle.std.specs.Prelude.{◌≡◌, ◌+◌, IfErr, IfOk, MatchBool, OnErr, OnOk};
ghost use Rattle.identity_source.specs.History.{EndsWith, IsHistory, StartsWith, last_revision};
ghost use Rattle.identity_source.specs.SourceParts.{IsSource};
ghost use Rattle.identity_source.specs.State.{IsOpening};
ghost use Rattle.identity_source.specs.Verdict.{IsNextState, Publishes, RefusesNext};

use super::IdentitySource;
use crate::attempt::SourceLog;
use crate::error::SourceError;
use crate::receipt::Receipt;
use crate::round::round;
use crate::rule::ListWriter;
use crate::snapshot::Snapshot;
use crate::state::State;
use identity_update::laws::written_updates_are_lawful;
use identity_update::{Update, UpdateError};
use std::alloc::Global;
use std::sync::Wait;

// The state of the next revision.
fn read_next(alloc: Global, revision: u64, text: &[u8], width: usize) -> Result<State, UpdateError>
    ensures next { IfOk result (IsNextState revision width text.now) }
    ensures update { IfOk result (λ x. IsOpening x → ⊥) }
    ensures refused { IfErr result (RefusesNext revision width text.now) }
{
    if revision == u64::MAX {
        return Err(UpdateError::RevisionsUsedUp);
    }
    let update = Update::read(alloc, text, width)?;
    written_updates_are_lawful();
    Ok(State::applied(revision + 1, update))
}

impl IdentitySource {
    pub(crate) fn of(
        writer: ListWriter,
        log: SourceLog,
        last: Receipt,
        alloc: Global,
    ) -> IdentitySource
        requires { IsSource writer.desk.shown.value log last }
        ensures { result ≡ last }
    {
        IdentitySource {
            writer,
            log,
            last,
            alloc,
        }
    }

    /// Appends the state that the text lawfully writes in lines of `width` characters, and gives a receipt of the list
    /// with it. A refused call publishes nothing.
    ///
    /// It errs with `RevisionsUsedUp` where the last revision is 2^64 - 1, whatever the text is, else with the first
    /// rule that the text breaks, and with `OutOfMemory` where memory or a share of the state is refused.
    ///
    /// It may wait for readers that stand inside `current`. Whoever is told of the receipt sees the state; other readers see it soon.
    pub fn apply<R: Wait>(
        &mut self,
        rt: &R,
        text: &[u8],
        width: usize,
    ) -> Result<Receipt, UpdateError>
        ensures published { OnOk result (Publishes self.old self.new width text.now) }
        ensures receipt { IfOk result (λ receipt. receipt ≡ self.new) }
        ensures refused { IfErr result (RefusesNext (last_revision self.old.list) width text.now) }
        ensures same { OnErr result (self.new ≡ self.old) }
        ensures name { self.new.name ≡ self.old.name }
        ensures receipt_name { IfOk result (λ receipt. receipt.name ≡ self.old.name) }
    {
        let next = read_next(self.alloc, self.last.revision(), text, width)?;
        let next = Snapshot::new(self.alloc, next)?;
        let mine = next.try_clone()?;
        let theirs = next.try_clone()?;
        let mark = round(&mut self.writer, &mut self.log, rt, next, &mine)?;
        let receipt = Receipt::new(mark.again(), theirs);
        self.last = Receipt::new(mark, mine);
        Ok(receipt)
    }

    /// A receipt of the whole list. It errs with `OutOfMemory` alone, where a share of the last state is refused.
    pub fn receipt(&mut self) -> Result<Receipt, SourceError>
        ensures whole { IfOk result (λ receipt. receipt ≡ self.old) }
        ensures same { self.new ≡ self.old }
        ensures name { IfOk result (λ receipt. receipt.name ≡ self.old.name) }
    {
        self.last.try_clone()
    }

    /// The last state.
    pub fn latest(&self) -> &Snapshot
        ensures last { EndsWith self.now.list result.now }
        ensures history { IsHistory self.now.list }
    {
        self.last.snapshot()
    }

    /// Whether the source's list begins with the receipt's. If it does not, the receipt's begins with the source's.
    pub fn covers(&self, receipt: &Receipt) -> bool
        requires { receipt.now.name ≡ self.now.name }
        ensures { MatchBool result (StartsWith self.now.list receipt.now.list) (StartsWith receipt.now.list self.now.list) }
    {
        self.last.covers(receipt)
    }

    /// Ends the source and publishes nothing. It may wait for readers.
    ///
    /// Receipts, snapshots and what readers keep stay as they are. A reader then answers what it keeps, and its `look` says `NoGuard`.
    pub fn close<R: Wait>(self, rt: &R) {
        let Self {
            writer,
            log: _,
            last: _,
            alloc: _,
        } = self;
        drop(writer.take(rt));
    }
}

//! Opening a source with its readers.
ghost use Rattle.std.specs.Prelude.{◌≡◌, ◌≤◌, ◌∷◌, [], All, IfOk, Some, vec_capacity, vec_len};
ghost use Rattle.left_right.specs.Sides.{view};
ghost use Rattle.identity_source.specs.NamedList.{IsListed};
ghost use Rattle.identity_source.specs.Reader.{IsFresh};
ghost use Rattle.identity_source.specs.SourceParts.{IsStart};
ghost use Rattle.identity_source.specs.State.{opening};

use crate::attempt::{Finishes, SourceLog, Tries};
use crate::error::SourceError;
use crate::kept_reader::{IdentityReader, KeptReader};
use crate::pane::Pane;
use crate::publish::publish;
use crate::published::{Mark, Published};
use crate::receipt::Receipt;
use crate::rule::ListWriter;
use crate::snapshot::Snapshot;
use crate::source::IdentitySource;
use crate::state::State;
use round_log::RoundLog;
use std::alloc::Global;
use std::sync::Wait;

// So many shares of a state.
fn shares_of(alloc: Global, of: &Snapshot, count: usize) -> Result<Vec<Snapshot>, SourceError>
    ensures { IfOk result (λ shares. (vec_len shares ≡ count) × All (λ s. s ≡ of.now) shares.items) }
{
    let mut shares = Vec::with_capacity(alloc, count)?;
    for _ in 0..count {
        let Ok(()) = shares.push(of.try_clone()?) else {
            return Err(SourceError::OutOfMemory);
        };
    }
    Ok(shares)
}

// The first round: the opening state is tried, and done.
fn start(alloc: Global, first: u64) -> Result<(SourceLog, Mark, Published, Snapshot), SourceError>
    ensures { IfOk result (λ p. IsStart first p.0 p.1 p.2 p.3) }
{
    let state = Snapshot::new(alloc, State::opening(alloc, first))?;
    let mine = state.try_clone()?;
    let mut log = RoundLog::open();
    let Some(trial) = log.begin::<Snapshot, Tries>(&mine) else {
        return Err(SourceError::OutOfMemory);
    };
    let length = trial.entry_count();
    let published = Published::new(state, trial.token(), length);
    log.end::<Snapshot, Finishes>(trial, &mine);
    let mark = Mark::new(log.token(), length, &mine);
    Ok((log, mark, published, mine))
}

// A reader that keeps the opening state.
fn seat(writer: &mut ListWriter, mark: &Mark, first: u64, kept: Snapshot) -> IdentityReader
    requires view { view writer.old.desk.place ≡ Some mark.now }
    requires mark { IsListed mark.now }
    requires opening { mark.now.list ≡ opening first ∷ [] }
    requires kept { kept ≡ opening first }
    ensures fresh { IsFresh mark.now result }
    ensures view { view writer.new.desk.place ≡ view writer.old.desk.place }
    ensures published { writer.new.desk.shown.value ≡ writer.old.desk.shown.value }
{
    let pane = Pane::seat(writer, mark);
    KeptReader::fresh(pane, kept)
}

// A reader for each share.
fn seat_all(
    writer: &mut ListWriter,
    mark: &Mark,
    first: u64,
    mut shares: Vec<Snapshot>,
    mut seated: Vec<IdentityReader>,
) -> Vec<IdentityReader>
    requires view { view writer.old.desk.place ≡ Some mark.now }
    requires mark { IsListed mark.now }
    requires opening { mark.now.list ≡ opening first ∷ [] }
    requires shares { All (λ s. s ≡ opening first) shares.items }
    requires room { (vec_len seated ≡ 0) × (vec_len shares ≤ vec_capacity seated) }
    ensures count { vec_len result ≡ vec_len shares }
    ensures fresh { All (IsFresh mark.now) result.items }
    ensures published { writer.new.desk.shown.value ≡ writer.old.desk.shown.value }
{
    while let Some(kept) = shares.pop() {
        seated.push_reserved(seat(writer, mark, first, kept));
    }
    seated
}

impl IdentitySource {
    /// Opens a source whose list is one opening state of this revision, and so many readers of it.
    ///
    /// It errs with `OutOfMemory` alone, and then there is no source. There is no reader yet to wait for: the bound is
    /// that of a publish.
    pub fn open<R: Wait>(
        rt: &R,
        alloc: Global,
        first: u64,
        readers: usize,
    ) -> Result<(IdentitySource, Vec<IdentityReader>), SourceError>
        requires { (1 ≤ readers) × (readers ≤ 64) }
        ensures list { IfOk result (λ opened. opened.0.list ≡ opening first ∷ []) }
        ensures first { IfOk result (λ opened. opened.0.name.first ≡ first) }
        ensures count { IfOk result (λ opened. vec_len opened.1 ≡ readers) }
        ensures readers { IfOk result (λ opened. All (IsFresh opened.0) opened.1.items) }
    {
        let (log, mark, published, state) = start(alloc, first)?;
        let second = published.try_clone()?;
        let third = published.try_clone()?;
        let shares = shares_of(alloc, &state, readers)?;
        let room = Vec::with_capacity(alloc, readers)?;
        let last = Receipt::new(mark.again(), state);
        let mut writer: ListWriter = ListWriter::new(alloc, published, second, readers)?;
        // Once the writer has published, its readers can be told its list.
        let Ok(()) = publish(&mut writer, rt, third) else {
            drop(writer.take(rt));
            return Err(SourceError::OutOfMemory);
        };
        let seated = seat_all(&mut writer, &mark, first, shares, room);
        Ok((IdentitySource::of(writer, log, last, alloc), seated))
    }
}

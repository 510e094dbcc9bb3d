//! One round of a source: a state is tried, published, and done.
ghost use Rattle.std.specs.Prelude.{◌≡◌, ◌+◌, MatchResult};
ghost use Rattle.identity_source.specs.History.{last_revision};
ghost use Rattle.identity_source.specs.NamedList.{appended};
ghost use Rattle.identity_source.specs.SourceParts.{IsBase};
ghost use Rattle.identity_source.specs.State.{IsOpening};

use crate::attempt::{Finishes, SourceLog, Tries};
use crate::publish::publish;
use crate::published::{Mark, Published};
use crate::rule::ListWriter;
use crate::snapshot::Snapshot;
use std::alloc::AllocError;
use std::sync::Wait;

/// Publishes the next state, of which `mine` is another share. At `Err` nothing was published.
pub(crate) fn round<R: Wait>(
    writer: &mut ListWriter,
    log: &mut SourceLog,
    rt: &R,
    next: Snapshot,
    mine: &Snapshot,
) -> Result<Mark, AllocError>
    requires base { IsBase writer.old.desk.shown.value log.old }
    requires same { mine.now ≡ next }
    requires revision { next.revision ≡ last_revision writer.old.desk.shown.value.list + 1 }
    requires update { IsOpening next → ⊥ }
    ensures mark { MatchResult result (λ m. (writer.new.desk.shown.value ≡ m) ×
        (m ≡ appended writer.old.desk.shown.value next)) (λ _. writer.new.desk.shown.value ≡ writer.old.desk.shown.value) }
    ensures base { IsBase writer.new.desk.shown.value log.new }
{
    let Some(trial) = log.begin::<Snapshot, Tries>(mine) else {
        return Err(AllocError);
    };
    let length = trial.entry_count();
    let tried = trial.token();
    let published = Published::new(next, tried, length);
    match publish(writer, rt, published) {
        Ok(()) => {
            log.end::<Snapshot, Finishes>(trial, mine);
            Ok(Mark::new(log.token(), length, mine))
        }
        Err(_) => {
            log.end::<Snapshot, Tries>(trial, mine);
            Err(AllocError)
        }
    }
}

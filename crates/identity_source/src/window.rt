//! How a reader looks at what is published.
ghost use Rattle.std.specs.Prelude.{◌≡◌, true, false, Err, IfErr, IfOk};
ghost use Rattle.identity_source.specs.History.{EndsWith};
ghost use Rattle.identity_source.specs.Sight.{Goes, Learned, Looked, MissedBy, MissedWithin, Sight, will_miss};
ghost use Rattle.identity_source.specs.declared.window.Missed.TheVariants.{NoGuard};

use crate::receipt::Receipt;
use crate::snapshot::Snapshot;

/// Why a window gave no state.
#[derive(Clone, Copy, Debug, PartialEq, Eq)]
pub enum Missed {
    /// It has no place at what is published.
    NoPlace,
    /// It was not let in, as when the source is closed.
    NoGuard,
    /// A share of the state was refused.
    OutOfMemory,
}

/// A view of what a source publishes.
///
/// Contracts see the source's name, the list that was seen, what it must begin with from the next look
/// on, three counts, of looks, misses and refused shares, and of a `Missing` which looks are to miss. A
/// count that stands at 2^64 - 1 counts as risen.
pub trait Window {
    ghost sight: { Self → Sight };

    /// The last state of what is published now, a share of it. This never waits.
    ///
    /// It errs with `NoPlace` where the window isn't live, and of a live one with `NoGuard` where it isn't let in, or
    /// with `OutOfMemory` where the share is refused.
    fn enter(&mut self) -> Result<Snapshot, Missed>
        ensures looked { IfOk result (Looked (sight self.old) (sight self.new)) }
        ensures missed { IfErr result (MissedBy (sight self.old) (sight self.new)) }
        ensures goes { Goes (sight self.old) (sight self.new) }
        ensures planned { will_miss (sight self.old) ≡ true → result ≡ Err NoGuard }
        ensures passed { will_miss (sight self.old) ≡ false → result ≡ Err NoGuard → MissedWithin (sight self.old).plan (sight self.new).plan };

    /// Takes in the list of a receipt of the same source, and gives its last state.
    fn learn(&mut self, receipt: Receipt) -> Snapshot
        requires { receipt.name ≡ (sight self.old).name }
        ensures last { EndsWith receipt.list result }
        ensures learned { Learned (sight self.old) (sight self.new) receipt.list };

    /// Whether it has a place. This never changes.
    fn live(&self) -> bool
        ensures { result ≡ (sight self.now).is_live };
}

//! What a kept reader does.
ghost use Rattle.std.specs.Prelude.{◌≡◌, ⊤};
ghost use Rattle.std.specs.Borrow.{sem};
ghost use mathlib.Core.Option.{none};
ghost use denote.Follow.{follows_so};
ghost use Rattle.identity_source.specs.History.{EndsWith};
ghost use Rattle.identity_source.specs.Reader.{IsReader, Renewed, Told, plain_reader};
ghost use Rattle.identity_source.specs.Sight.{with_misses};
ghost use Rattle.identity_source.specs.contracts.kept_reader.KeptReader.{the_row};

use super::{KeptReader, Look};
use crate::missing::Missing;
use crate::pane::Pane;
use crate::receipt::Receipt;
use crate::snapshot::Snapshot;
use crate::window::Window;

impl<W: Window> KeptReader<W> {
    /// A reader that gave nothing yet.
    pub(crate) fn fresh(window: W, kept: Snapshot) -> KeptReader<W>
        requires { IsReader (W.sight window) kept None }
        ensures { result ≡ plain_reader (W.sight window) kept None None }
    {
        KeptReader {
            window,
            kept,
            told: None,
            look: None,
        }
    }

    /// One whole state, the last of the reader's list, never earlier than any that this reader gave or was
    /// told of. It never waits and is never refused; `look` tells how it came to its answer. After a miss it
    /// is the state that the reader kept.
    pub fn current(&mut self) -> &Snapshot
        ensures* { sem 𝓛 (follows_so (the_row W.row W.Window) (the_row W.row W.Window) self.entry.ghost_name none (λ _ _. ⊤)
            (λ n. Renewed self.old n × EndsWith n.list result.now)) }
    {
        self.renew();
        self.kept()
    }

    // Asks the window.
    fn renew(&mut self)
        ensures { Renewed self.old self.new }
    {
        match self.window.enter() {
            Ok(state) => {
                self.kept = state;
                self.told = None;
                self.look = Some(Look::Looked);
            }
            Err(missed) => self.look = Some(Look::Missed(missed)),
        }
    }

    fn kept(&self) -> &Snapshot
        ensures { EndsWith self.now.list result.now }
    {
        &self.kept
    }

    /// From now on the reader answers from the receipt's place or later.
    ///
    /// The receipt is of this reader's source, of the one that was opened with it.
    pub fn told(&mut self, receipt: Receipt)
        requires { receipt.name ≡ self.old.sight.name }
        ensures { Told self.old self.new receipt.list }
    {
        let revision = receipt.revision();
        let mark = receipt.mark();
        let state = self.window.learn(receipt);
        if revision >= self.kept.revision() {
            self.kept = state;
            self.told = Some(mark);
        }
    }

    /// How the last call of `current` came to its answer. `None` before the first.
    pub fn look(&self) -> Option<Look>
        ensures { result ≡ self.now.look }
    {
        self.look
    }

    /// Whether its window has a place. If not, the reader answers from receipts alone.
    pub fn live(&self) -> bool
        ensures { result ≡ self.now.sight.is_live }
    {
        self.window.live()
    }
}

impl KeptReader<Pane> {
    /// The same reader over a window that misses with `NoGuard` at the looks of the given numbers, counted from 0 and
    /// from this call on. It is for tests.
    pub fn with_misses(self, failing: Vec<u64>) -> KeptReader<Missing<Pane>>
        ensures list { result.list ≡ self.list }
        ensures look { result.look ≡ self.look }
        ensures sight { result.sight ≡ with_misses self.sight failing.items 0 0 }
    {
        let Self {
            window,
            kept,
            told,
            look,
        } = self;
        KeptReader {
            window: Missing::of(window, failing),
            kept,
            told,
            look,
        }
    }
}

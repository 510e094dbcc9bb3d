//! A window that refuses some looks.
ghost use Rattle.std.specs.Prelude.{◌≡◌};
ghost use Rattle.identity_source.specs.History.{IsHistory};
ghost use Rattle.identity_source.specs.Sight.{will_miss, with_misses};

use crate::receipt::Receipt;
use crate::snapshot::Snapshot;
use crate::window::{Missed, Window};
use std::marker::Model;

/// A window round another that misses at the looks of given numbers, counted from 0, and passes every other call on. It is for tests.
#[derive(Drop)]
pub struct Missing<W: Window> {
    window: W,
    failing: Vec<u64>,
    calls: u64,
    misses: u64,
}

impl<W: Window> Model for Missing<W> {
    ghost use Rattle.identity_source.specs.History.{IsHistory};
    ghost use Rattle.identity_source.specs.Sight.{Sight, with_misses};

    ghost Value = { Sight };

    ghost view = { λ m. with_misses (W.sight m.window) m.failing.items m.calls m.misses };

    ghost invariant = { λ m. IsHistory (W.sight m.window).seen };
}

impl<W: Window> Missing<W> {
    pub(crate) fn of(window: W, failing: Vec<u64>) -> Missing<W>
        requires { IsHistory (W.sight window).seen }
        ensures { result ≡ with_misses (W.sight window) failing.items 0 0 }
    {
        Missing {
            window,
            failing,
            calls: 0,
            misses: 0,
        }
    }

    fn will_miss(&self) -> bool
        ensures { result ≡ will_miss self.now }
    {
        self.failing.contains(&self.calls) && self.window.live()
    }
}

impl<W: Window> Window for Missing<W> {
    ghost sight = { λ m. m };

    fn enter(&mut self) -> Result<Snapshot, Missed> {
        let planned = self.will_miss();
        self.calls = self.calls.saturating_add(1);
        if planned {
            self.misses = self.misses.saturating_add(1);
            return Err(Missed::NoGuard);
        }
        match self.window.enter() {
            Ok(state) => Ok(state),
            Err(Missed::OutOfMemory) => Err(Missed::OutOfMemory),
            Err(missed) => {
                self.misses = self.misses.saturating_add(1);
                Err(missed)
            }
        }
    }

    fn learn(&mut self, receipt: Receipt) -> Snapshot {
        self.window.learn(receipt)
    }

    fn live(&self) -> bool {
        self.window.live()
    }
}

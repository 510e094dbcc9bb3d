//! A reader over any window, which keeps the last state that it gave or was told of.
use crate::pane::Pane;
use crate::published::Mark;
use crate::snapshot::Snapshot;
use crate::window::{Missed, Window};
use std::marker::Model;

mod calls;

/// How a call of `current` came to its answer.
#[derive(Clone, Copy, Debug, PartialEq, Eq)]
pub enum Look {
    /// The window gave the answer.
    Looked,
    /// The window missed, and the answer is the state that the reader kept.
    Missed(Missed),
}

/// A reader that keeps the last state that it gave or was told of, so that it always has an answer and never goes back.
///
/// Contracts see its window and its list: a history from the source's first revision, whose last state is
/// the kept one. Where the window saw, it begins with the list of each receipt that the reader was told of.
/// That the list of a reader that was told of nothing is a beginning of the source's own, the steps that both
/// take at the published copies keep; no clause says it.
#[derive(Drop)]
pub struct KeptReader<W: Window> {
    window: W,
    kept: Snapshot,
    // The place of the receipt that the kept state came from, if it came from one.
    told: Option<Mark>,
    look: Option<Look>,
}

impl<W: Window> Model for KeptReader<W> {
    ghost use Rattle.identity_source.specs.Reader.{PlainReader, plain_reader, IsReader};

    ghost Value = { PlainReader };

    ghost view = { λ r. plain_reader (W.sight r.window) r.kept r.told r.look };

    ghost invariant = { λ r. IsReader (W.sight r.window) r.kept r.told };
}

/// A reader of a source.
pub type IdentityReader = KeptReader<Pane>;

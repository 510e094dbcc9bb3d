//! Going over the entries of an update.
ghost use Rattle.std.specs.Prelude.{◌≡◌, [], map};
ghost use Rattle.std.specs.Iterator.{YieldsFirst, item_count};

use crate::identity::Identity;
use crate::kept::KeptEntry;
use std::marker::Model;

/// The entries of an update that are still to come, in its order.
#[derive(Drop)]
pub struct Entries<'a> {
    document: &'a [u8],
    entries: &'a [KeptEntry],
}

impl<'a> Model for Entries<'a> {
    ghost use Rattle.std.specs.Prelude.{List, map};
    ghost use Rattle.identity_update.specs.Parts.{Entry};
    ghost use Rattle.identity_update.specs.Kept.{AreKept, kept_entry};

    ghost Value = { List Entry };

    ghost view = { λ e. map (kept_entry e.document.now) e.entries.now };

    ghost invariant = { λ e. AreKept e.document.now e.entries.now };
}

impl<'a> Entries<'a> {
    ghost use Rattle.identity_update.specs.Kept.{AreKept, kept_entry};

    pub(crate) fn of(document: &'a [u8], entries: &'a [KeptEntry]) -> Self
        requires { AreKept document.now entries.now }
        ensures { result ≡ map (kept_entry document.now) entries.now }
    {
        Entries { document, entries }
    }
}

impl Entries<'_> {
    /// No entries, as before any update.
    pub fn none() -> Entries<'static>
        ensures { result ≡ [] }
    {
        Entries {
            document: &[],
            entries: &[],
        }
    }
}

impl<'a> Iterator for Entries<'a> {
    type Item = Identity<'a>;

    ghost next_gives = { YieldsFirst (λ rest. rest) };

    ghost remaining = { item_count (λ rest. rest) };

    fn next(&mut self) -> Option<Identity<'a>> {
        let (first, rest) = self.entries.split_first()?;
        self.entries = rest;
        Some(Identity::cut(self.document, first))
    }
}

impl<'a> ExactSizeIterator for Entries<'a> {
    fn len(&self) -> usize {
        self.entries.len()
    }
}

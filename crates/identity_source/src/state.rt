//! A state: a revision and an update, or the state that a source opens with.
ghost use Rattle.std.specs.Prelude.{◌≡◌, map, option_map};
ghost use Rattle.identity_update.specs.Bundle.{plain_bundle};
ghost use Rattle.identity_update.specs.BundleMap.{bundle_map};

use identity_update::{BundleParts, Entries, Update};
use spiffe_bundle::JwtBundleSet;
use std::alloc::Global;
use std::marker::Model;

#[derive(Drop)]
enum Content {
    /// Its set is empty, and is there to be lent.
    Opening {
        revision: u64,
        bundles: JwtBundleSet,
    },
    Applied {
        revision: u64,
        update: Update,
    },
}

/// All that a state holds. It stands once in memory, behind the shares of its snapshots.
#[derive(Drop)]
pub struct State {
    content: Content,
}

impl Model for State {
    ghost use Rattle.identity_source.specs.State.{PlainState};

    ghost Value = { PlainState };

    ghost use Rattle.identity_source.specs.Content.{plain_state, IsContent};

    ghost view = { λ s. plain_state s.content };

    ghost invariant = { λ s. IsContent s.content };
}

impl State {
    ghost use Rattle.identity_source.specs.State.{opening};

    /// The state of a source to which no update was applied.
    pub(crate) fn opening(alloc: Global, revision: u64) -> State
        ensures { result ≡ opening revision }
    {
        State {
            content: Content::Opening {
                revision,
                bundles: JwtBundleSet::new(alloc),
            },
        }
    }

    pub(crate) fn applied(revision: u64, update: Update) -> State
        ensures { result ≡ record { revision = revision; update = update } }
    {
        State {
            content: Content::Applied { revision, update },
        }
    }

    pub(crate) fn revision(&self) -> u64
        ensures { result ≡ self.now.revision }
    {
        match &self.content {
            Content::Opening { revision, .. } => *revision,
            Content::Applied { revision, .. } => *revision,
        }
    }

    pub(crate) fn identities(&self) -> Entries<'_>
        ensures { result ≡ self.now.update.entries }
    {
        if let Content::Applied { update, .. } = &self.content {
            return update.entries();
        }
        Entries::none()
    }

    pub(crate) fn bundles(&self) -> &[BundleParts]
        ensures { map plain_bundle result.now ≡ self.now.update.bundles }
    {
        match &self.content {
            Content::Opening { .. } => &[],
            Content::Applied { update, .. } => update.bundles(),
        }
    }

    pub(crate) fn bundle_set(&self) -> &JwtBundleSet
        ensures { result.now ≡ bundle_map self.now.update.bundles }
    {
        match &self.content {
            Content::Opening { bundles, .. } => bundles,
            Content::Applied { update, .. } => update.bundle_set(),
        }
    }

    pub(crate) fn withdrawn(&self) -> Option<&str>
        ensures { option_map (λ text. text.now) result ≡ self.now.update.reason }
    {
        match &self.content {
            Content::Opening { .. } => None,
            Content::Applied { update, .. } => update.reason(),
        }
    }
}

//! A share of a state.
ghost use Rattle.std.specs.Prelude.{◌≡◌, IfOk, Ok, map, option_map, slice_get};
ghost use Rattle.identity_update.specs.Bundle.{plain_bundle};
ghost use Rattle.identity_update.specs.BundleMap.{bundle_map};
ghost use Rattle.spiffe_bundle.specs.JwtBundleSet.{find_bundle};

use crate::error::SourceError;
use crate::state::State;
use identity_update::{BundleParts, Entries, Identity};
use spiffe_bundle::{BundleSource, JwtBundle, JwtBundleSet};
use spiffe_id::{DEFAULT_SVID, TrustDomain};
use std::alloc::{AllocError, Global};
use std::convert::Infallible;
use std::marker::Model;
use std::sync::Arc;

/// One whole state of a source, shared. It stays as it is for as long as it is kept, whatever is applied, and holds up no publish.
#[derive(Drop)]
pub struct Snapshot {
    state: Arc<State, Global>,
}

impl Model for Snapshot {
    ghost use Rattle.std.specs.Arc.{arc_value};
    ghost use Rattle.identity_source.specs.State.{PlainState};

    ghost Value = { PlainState };

    ghost view = { λ s. arc_value s.state };
}

impl Snapshot {
    pub(crate) fn new(alloc: Global, state: State) -> Result<Snapshot, AllocError>
        ensures { IfOk result (λ s. s ≡ state) }
    {
        Ok(Snapshot {
            state: Arc::new(alloc, state)?,
        })
    }

    /// A further share of the same state. It errs with `OutOfMemory` alone, where the share is refused.
    pub fn try_clone(&self) -> Result<Snapshot, SourceError>
        ensures { IfOk result (λ s. s ≡ self.now) }
    {
        Ok(Snapshot {
            state: Arc::try_clone(&self.state)?,
        })
    }

    /// How many updates were applied before it, from the revision that its source opened with.
    pub fn revision(&self) -> u64
        ensures { result ≡ self.now.revision }
    {
        self.state.revision()
    }

    /// The default identity of the workload, none where the state has no identities.
    pub fn svid(&self) -> Option<Identity<'_>>
        ensures { result ≡ slice_get self.now.update.entries DEFAULT_SVID }
    {
        self.identities().nth(DEFAULT_SVID)
    }

    /// All identities, in the order of the update.
    pub fn identities(&self) -> Entries<'_>
        ensures { result ≡ self.now.update.entries }
    {
        self.state.identities()
    }

    /// All bundles as the update lists them. `bundle_set` has the last one of each trust domain.
    pub fn bundles(&self) -> &[BundleParts]
        ensures { map plain_bundle result.now ≡ self.now.update.bundles }
    {
        self.state.bundles()
    }

    /// The keys of each listed trust domain.
    pub fn bundle_set(&self) -> &JwtBundleSet
        ensures { result.now ≡ bundle_map self.now.update.bundles }
    {
        self.state.bundle_set()
    }

    /// Why the identities were withdrawn, where they were.
    pub fn withdrawn(&self) -> Option<&str>
        ensures { option_map (λ text. text.now) result ≡ self.now.update.reason }
    {
        self.state.withdrawn()
    }
}

impl BundleSource for Snapshot {
    type Item = JwtBundle;

    type Error = Infallible;

    ghost answer = { λ state domain. Ok (find_bundle domain (bundle_map state.update.bundles)) };

    fn bundle_for_trust_domain(
        &self,
        trust_domain: &TrustDomain,
    ) -> Result<Option<&Arc<JwtBundle>>, Infallible> {
        Ok(self.bundle_set().get_ref(trust_domain))
    }
}

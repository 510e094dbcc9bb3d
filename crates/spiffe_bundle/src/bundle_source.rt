//! Where the bundle of a trust domain comes from.
ghost use Rattle.std.specs.Prelude.{◌≡◌, ℕ, List, Option, Result, option_map};
ghost use Rattle.std.specs.Arc.{arc_value};
ghost use Rattle.spiffe_id.specs.Rules.{map_ok};

use spiffe_id::TrustDomain;
use std::sync::Arc;

/// Something that has bundles of trust domains, such as a set or a snapshot of an identity source.
///
/// Verifiers of tokens take one by this trait, and so work over any of them.
pub trait BundleSource {
    type Item;

    /// Why the source has no answer.
    type Error;

    // For each trust domain a source has one answer, which follows from what it holds.
    ghost answer: { Self → List ℕ → Result (Option Self.Item) Self.Error };

    /// The bundle of a trust domain, if the source has one. A source refuses with its own error, as its `answer` says.
    fn bundle_for_trust_domain(
        &self,
        trust_domain: &TrustDomain,
    ) -> Result<Option<&Arc<Self::Item>>, Self::Error>
        ensures { map_ok (λ o. option_map (λ a. arc_value a.now) o) result
            ≡ answer self.now trust_domain.now };
}

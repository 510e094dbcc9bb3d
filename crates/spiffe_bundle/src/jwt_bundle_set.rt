//! Sets of JWT bundles.
ghost use Rattle.std.specs.Prelude.{◌≡◌, ◌≢◌, ◌↔◌, ℕ, List, [], length, Some, Ok, IfOk, IfErr, IfSome, OnOk, OnErr, IsTrue, option_map};
ghost use Rattle.std.specs.Arc.{arc_value};
ghost use Rattle.std.specs.Cmp.{partial_equiv_from_equiv};
ghost use Rattle.spiffe_bundle.specs.Entries.{AreNamed, IsAscending};
ghost use Rattle.spiffe_bundle.specs.JwtBundleSet.{with_bundle, find_bundle, with_bundles, IsPartlyExtended, set_eq, set_equiv};

use crate::bundle_source::BundleSource;
use crate::bundles::Bundles;
use crate::error::JwtBundleError;
use crate::jwt_bundle::JwtBundle;
use spiffe_id::TrustDomain;
use std::alloc::Global;
use std::collections::BTreeMap;
use std::convert::Infallible;
use std::fmt;
use std::marker::Model;
use std::sync::Arc;

/// JWT bundles of several trust domains, one for each.
#[derive(Drop)]
pub struct JwtBundleSet {
    alloc: Global,
    bundles: BTreeMap<TrustDomain, Arc<JwtBundle>>,
}

impl Model for JwtBundleSet {
    ghost use Rattle.spiffe_bundle.specs.Entries.{AreNamed};
    ghost use Rattle.spiffe_bundle.specs.JwtBundleSet.{Bundles, stored_bundles};

    ghost Value = { Bundles };

    ghost view = { λ s. stored_bundles s.bundles.entries };

    // Each bundle stands at its own trust domain.
    ghost invariant = { λ s. AreNamed (λ b. b.trust_domain) (stored_bundles s.bundles.entries) };
}

impl JwtBundleSet {
    /// A set without bundles.
    pub fn new(alloc: Global) -> Self
        ensures { result ≡ [] }
    {
        JwtBundleSet {
            alloc,
            bundles: BTreeMap::new(alloc),
        }
    }

    /// Adds a bundle, in place of one of its trust domain. `OutOfMemory` alone refuses it, and then the set is as it was.
    pub fn add_bundle(&mut self, bundle: JwtBundle) -> Result<(), JwtBundleError>
        ensures ok { OnOk result (self.new ≡ with_bundle self.old bundle) }
        ensures found { OnOk result (find_bundle bundle.trust_domain self.new ≡ Some bundle) }
        ensures others { OnOk result ((q : List ℕ) → q ≢ bundle.trust_domain
            → find_bundle q self.new ≡ find_bundle q self.old) }
        ensures err { IfErr result (λ e. e ≡ JwtBundleError.OutOfMemory) }
        ensures kept { OnErr result (self.new ≡ self.old) }
    {
        let shared = Arc::new(self.alloc, bundle)?;
        self.add_share(shared)
    }

    /// A share of the bundle of a trust domain, which outlives the set.
    ///
    /// A share can be refused, as `OutOfMemory` alone; `get_ref` lends the bundle and can't.
    pub fn get(&self, trust_domain: &TrustDomain) -> Result<Option<Arc<JwtBundle>>, JwtBundleError>
        ensures ok { IfOk result (λ o. option_map arc_value o ≡ find_bundle trust_domain.now self.now) }
        ensures named { IfOk result (λ o. IfSome o (λ b. (arc_value b).trust_domain ≡ trust_domain.now)) }
        ensures err { IfErr result (λ e. e ≡ JwtBundleError.OutOfMemory) }
    {
        match self.get_ref(trust_domain) {
            Some(bundle) => Ok(Some(Arc::try_clone(bundle)?)),
            None => Ok(None),
        }
    }

    /// The bundle of a trust domain.
    pub fn get_ref(&self, trust_domain: &TrustDomain) -> Option<&Arc<JwtBundle>>
        ensures found { option_map (λ a. arc_value a.now) result ≡ find_bundle trust_domain.now self.now }
        ensures named { IfSome result (λ b. (arc_value b.now).trust_domain ≡ trust_domain.now) }
    {
        self.bundles.get(trust_domain)
    }

    /// All pairs of a trust domain and its bundle, in ascending order.
    pub fn iter(&self) -> Bundles<'_>
        ensures all { result ≡ self.now }
        ensures ascending { IsAscending self.now }
        ensures named { AreNamed (λ b. b.trust_domain) self.now }
    {
        Bundles {
            inner: self.bundles.iter(),
        }
    }

    /// The number of trust domains.
    pub fn len(&self) -> usize
        ensures { result ≡ length self.now }
    {
        self.bundles.len()
    }

    /// Whether no trust domain has a bundle.
    pub fn is_empty(&self) -> bool
        ensures { IsTrue result ↔ (self.now ≡ []) }
    {
        self.bundles.is_empty()
    }

    /// The older name of `get_ref`.
    pub fn bundle_for(&self, trust_domain: &TrustDomain) -> Option<&Arc<JwtBundle>>
        ensures found { option_map (λ a. arc_value a.now) result ≡ find_bundle trust_domain.now self.now }
        ensures named { IfSome result (λ b. (arc_value b.now).trust_domain ≡ trust_domain.now) }
    {
        self.get_ref(trust_domain)
    }

    /// Adds bundles in turn. Where memory runs out it answers `OutOfMemory`, and those before have been added.
    pub fn try_extend(&mut self, bundles: Vec<JwtBundle>) -> Result<(), JwtBundleError>
        ensures ok { OnOk result (self.new ≡ with_bundles self.old bundles.items) }
        ensures err { IfErr result (λ e. e ≡ JwtBundleError.OutOfMemory) }
        ensures partly { OnErr result (IsPartlyExtended self.old bundles.items self.new) }
    {
        for bundle in bundles {
            self.add_bundle(bundle)?;
        }
        Ok(())
    }

    /// The set of these bundles; of equal trust domains the last bundle is kept. `OutOfMemory` alone refuses it.
    pub fn try_from_bundles(alloc: Global, bundles: Vec<JwtBundle>) -> Result<Self, JwtBundleError>
        ensures ok { IfOk result (λ s. s ≡ with_bundles [] bundles.items) }
        ensures err { IfErr result (λ e. e ≡ JwtBundleError.OutOfMemory) }
    {
        let mut set = JwtBundleSet::new(alloc);
        set.try_extend(bundles)?;
        Ok(set)
    }

    /// A copy whose bundles are shared with this set. `OutOfMemory` alone refuses it.
    pub fn try_clone(&self, alloc: Global) -> Result<Self, JwtBundleError>
        ensures ok { IfOk result (λ s. s ≡ self.now) }
        ensures err { IfErr result (λ e. e ≡ JwtBundleError.OutOfMemory) }
    {
        let mut copy = JwtBundleSet::new(alloc);
        for (_, bundle) in self.iter() {
            let share = Arc::try_clone(bundle)?;
            copy.add_share(share)?;
        }
        Ok(copy)
    }

    fn add_share(&mut self, bundle: Arc<JwtBundle>) -> Result<(), JwtBundleError>
        ensures ok { OnOk result (self.new ≡ with_bundle self.old (arc_value bundle)) }
        ensures err { IfErr result (λ e. e ≡ JwtBundleError.OutOfMemory) }
        ensures kept { OnErr result (self.new ≡ self.old) }
    {
        let domain = bundle.trust_domain().copy(self.alloc)?;
        self.bundles.insert(domain, bundle)?;
        Ok(())
    }
}

impl BundleSource for JwtBundleSet {
    type Item = JwtBundle;

    type Error = Infallible;

    ghost answer = { λ set domain. Ok (find_bundle domain set) };

    fn bundle_for_trust_domain(
        &self,
        trust_domain: &TrustDomain,
    ) -> Result<Option<&Arc<JwtBundle>>, Infallible> {
        Ok(self.get_ref(trust_domain))
    }
}

impl PartialEq for JwtBundleSet {
    ghost eq = { set_eq };

    ghost laws = { partial_equiv_from_equiv set_equiv };

    fn eq(&self, other: &Self) -> bool {
        self.bundles == other.bundles
    }
}

impl Eq for JwtBundleSet {
    ghost laws = { set_equiv };
}

impl fmt::Debug for JwtBundleSet {
    fn fmt<W: fmt::Write>(&self, f: &mut fmt::Formatter<W>) -> fmt::Result {
        f.debug_struct("JwtBundleSet")
            .field("bundles", &self.bundles)
            .finish()
    }
}

//! Going over the bundles of a set.
ghost use Rattle.std.specs.Prelude.{List, length};
ghost use Rattle.std.specs.Iterator.{YieldsFirstBy, at_most};

use crate::jwt_bundle::JwtBundle;
use spiffe_id::TrustDomain;
use std::collections::btree_map::Iter;
use std::marker::Model;
use std::sync::Arc;

/// The trust domains of a set that are still to come, each with its bundle, in ascending order.
#[derive(Drop)]
pub struct Bundles<'a> {
    pub(crate) inner: Iter<'a, TrustDomain, Arc<JwtBundle>>,
}

impl<'a> Model for Bundles<'a> {
    ghost use Rattle.spiffe_bundle.specs.JwtBundleSet.{Bundles, stored_bundles};

    ghost Value = { Bundles };

    ghost view = { λ b. stored_bundles b.inner };
}

impl<'a> Iterator for Bundles<'a> {
    ghost use Rattle.std.specs.Arc.{arc_value};

    type Item = (&'a TrustDomain, &'a Arc<JwtBundle>);

    ghost next_gives = { YieldsFirstBy (λ x. (x.0.now, arc_value x.1.now)) (λ rest. rest) };

    ghost remaining = { λ s. at_most (length s) };

    fn next(&mut self) -> Option<(&'a TrustDomain, &'a Arc<JwtBundle>)> {
        self.inner.next()
    }
}

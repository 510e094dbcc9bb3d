//! Going over the authorities of a bundle.
ghost use Rattle.std.specs.Prelude.{List, length};
ghost use Rattle.std.specs.Iterator.{YieldsFirstBy, at_most};

use crate::jwt_authority::JwtAuthority;
use std::collections::btree_map::Values;
use std::marker::Model;
use std::sync::Arc;

/// The authorities of a bundle that are still to come, ascending by key ID.
#[derive(Drop)]
pub struct JwtAuthorities<'a> {
    pub(crate) inner: Values<'a, String, Arc<JwtAuthority>>,
}

impl<'a> Model for JwtAuthorities<'a> {
    ghost use Rattle.std.specs.Prelude.{List, map};
    ghost use Rattle.std.specs.Arc.{arc_value};
    ghost use Rattle.spiffe_bundle.specs.JwtAuthority.{Authority};

    ghost Value = { List Authority };

    ghost view = { λ a. map arc_value a.inner };
}

impl<'a> Iterator for JwtAuthorities<'a> {
    ghost use Rattle.std.specs.Arc.{arc_value};

    type Item = &'a Arc<JwtAuthority>;

    ghost next_gives = { YieldsFirstBy (λ x. arc_value x.now) (λ rest. rest) };

    ghost remaining = { λ s. at_most (length s) };

    fn next(&mut self) -> Option<&'a Arc<JwtAuthority>> {
        self.inner.next()
    }
}

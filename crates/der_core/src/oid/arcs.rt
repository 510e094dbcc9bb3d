//! The arcs of an object identifier.
ghost use Rattle.std.specs.Prelude.{◌≡◌};
ghost use Rattle.der_core.specs.Oid.{AreSubidentifiers};

use super::subidentifier::subidentifier_at;

/// The arcs that are left, from the root.
#[derive(Clone, Copy, Debug)]
pub struct Arcs<'a> {
    first: Option<u32>,
    second: Option<u32>,
    rest: &'a [u8],
    ghost spelt: { AreSubidentifiers rest.now },
}

impl<'a> Iterator for Arcs<'a> {
    ghost use Rattle.std.specs.Iterator.{YieldsFirst, item_count};
    ghost use Rattle.der_core.specs.Arcs.{arcs_left};

    type Item = u32;

    ghost next_gives = { YieldsFirst arcs_left };

    ghost remaining = { item_count arcs_left };

    fn next(&mut self) -> Option<u32> {
        if let Some(first) = self.first {
            self.first = None;
            return Some(first);
        }
        if let Some(second) = self.second {
            self.second = None;
            return Some(second);
        }
        match subidentifier_at(self.rest) {
            None => None,
            Some((arc, rest)) => {
                self.rest = rest;
                Some(arc)
            }
        }
    }
}

impl<'a> Arcs<'a> {
    ghost use Rattle.std.specs.Prelude.{◌≡◌};
    ghost use Rattle.der_core.specs.Arcs.{arcs_left};
    ghost use Rattle.der_core.specs.Oid.{IsOidContent, arcs_of};

    /// The arcs that a content stands for.
    pub(crate) fn of(content: &'a [u8]) -> Arcs<'a>
        requires { IsOidContent content.now }
        ensures { arcs_left result ≡ arcs_of content.now }
    {
        let Some((number, rest)) = subidentifier_at(content) else {
            unreachable!()
        };
        let first = (number / 40).min(2);
        Arcs {
            first: Some(first),
            second: Some(number - 40 * first),
            rest,
        }
    }
}

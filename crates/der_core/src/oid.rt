//! Object identifiers.
ghost use Rattle.std.specs.Prelude.{ℕ};
ghost use Rattle.der_core.specs.Oid.{HoldsOid};

mod arcs;
mod subidentifier;
mod text;

use crate::{Cursor, DecodeValue, EncodeValue, Error, FixedTag, LawfulValue, Length, Tag, Writer};
pub use arcs::Arcs;
use std::cmp::Ordering;
use std::fmt;
use std::hash::{Hash, Hasher};
use subidentifier::are_subidentifiers;
use text::content_of;

/// An object identifier, by its content bytes (X.690, 8.19).
#[derive(Clone, Copy)]
pub struct ObjectIdentifier {
    bytes: [u8; 39],
    len: u8,
    ghost holds: { HoldsOid bytes len },
}

impl ObjectIdentifier {
    ghost use Rattle.std.specs.Prelude.{◌≡◌, ◌↔◌, ℕ, List, IfOk, IfErr, OnErr, IsTrue};
    ghost use Rattle.der_core.specs.Arcs.{arcs_left};
    ghost use Rattle.der_core.specs.ObjectIdentifier.{oid_content};
    ghost use Rattle.der_core.specs.Oid.{IsOidContent, arcs_of, oid_text};

    /// Reads decimal arcs that are joined by dots. `OidMalformed` where the text is that of no identifier whose content has at most 39 bytes
    /// and whose numbers are below 2^32.
    pub fn new(text: &str) -> Result<Self, Error>
        ensures value { IfOk result (λ v. oid_text (oid_content v) ≡ text.now) }
        ensures malformed { IfErr result (λ e. e ≡ Error.OidMalformed) }
        ensures none { OnErr result ((content : List ℕ) → IsOidContent content → oid_text content ≡ text.now → ⊥) }
    {
        let Some(content) = content_of(text.as_bytes()) else {
            return Err(Error::OidMalformed);
        };
        let Ok(oid) = ObjectIdentifier::from_bytes(content.as_slice()) else {
            unreachable!()
        };
        Ok(oid)
    }

    /// Takes the content, which is what follows tag and length. `Malformed` where it is none: empty, of more than 39 bytes, not in the fewest
    /// bytes, or with a number from 2^32 on.
    pub fn from_bytes(bytes: &[u8]) -> Result<Self, Error>
        ensures value { IfOk result (λ v. oid_content v ≡ bytes.now) }
        ensures content { IfOk result (λ v. IsOidContent bytes.now) }
        ensures malformed { IfErr result (λ e. e ≡ Error.Malformed) }
        ensures none { OnErr result (IsOidContent bytes.now → ⊥) }
    {
        if !is_content(bytes) {
            return Err(Error::Malformed);
        }
        let n = bytes.len();
        let mut buffer = [0; 39];
        buffer[..n].copy_from_slice(bytes);
        Ok(ObjectIdentifier {
            bytes: buffer,
            len: n as u8,
        })
    }

    /// The content, which is what follows tag and length.
    pub fn as_bytes(&self) -> &[u8]
        ensures value { result.now ≡ oid_content self.now }
        ensures content { IsOidContent (oid_content self.now) }
    {
        &self.bytes[..self.len as usize]
    }

    /// The arcs, from the root.
    pub fn arcs(&self) -> Arcs<'_>
        ensures { arcs_left result ≡ arcs_of (oid_content self.now) }
    {
        Arcs::of(self.as_bytes())
    }
}

impl fmt::Display for ObjectIdentifier {
    ghost use Rattle.std.specs.Prelude.{Some};
    ghost use Rattle.der_core.specs.ObjectIdentifier.{oid_content};
    ghost use Rattle.der_core.specs.Oid.{oid_text};

    ghost output = { λ v. Some (oid_text (oid_content v)) };

    fn fmt<W: fmt::Write>(&self, f: &mut fmt::Formatter<W>) -> fmt::Result {
        let mut arcs = self.arcs();
        let Some(first) = arcs.next() else {
            return Ok(());
        };
        write!(f, "{first}")?;
        for arc in arcs {
            write!(f, ".{arc}")?;
        }
        Ok(())
    }
}

impl fmt::Debug for ObjectIdentifier {
    ghost use Rattle.std.specs.Prelude.{Some};
    ghost use Rattle.der_core.specs.ObjectIdentifier.{oid_debug};

    ghost debug_output = { λ v. Some (oid_debug v) };

    fn fmt<W: fmt::Write>(&self, f: &mut fmt::Formatter<W>) -> fmt::Result {
        let oid = *self;
        write!(f, "ObjectIdentifier({oid})")
    }
}

ghost use Rattle.std.specs.Prelude.{◌↔◌, IsTrue};
ghost use Rattle.der_core.specs.Oid.{IsOidContent};

fn is_content(bytes: &[u8]) -> bool
    ensures { IsTrue result ↔ IsOidContent bytes.now }
{
    !bytes.is_empty() && bytes.len() <= 39 && are_subidentifiers(bytes)
}

impl FixedTag for ObjectIdentifier {
    ghost use Rattle.std.specs.Prelude.{◌≡◌};
    ghost use Rattle.der_core.specs.Tags.{oid_tag, tag_6};

    ghost tag = { oid_tag };

    ghost tag_is_valid = { tag_6 };

    const TAG: u8 = Tag::OID;

    fn tag_byte() -> u8
        ensures { result ≡ oid_tag }
    {
        Self::TAG
    }
}

impl<'a> DecodeValue<'a> for ObjectIdentifier {
    ghost use Rattle.std.specs.Prelude.{◌≡◌};
    ghost use Rattle.der_core.specs.ObjectIdentifier.{oid_content};

    ghost HasContent = { λ b v. oid_content v ≡ b };

    fn decode_value(cursor: &mut Cursor<'a>) -> Result<Self, Error> {
        let oid = ObjectIdentifier::from_bytes(cursor.rest())?;
        cursor.take_rest();
        Ok(oid)
    }
}

impl EncodeValue for ObjectIdentifier {
    ghost use Rattle.der_core.specs.ObjectIdentifier.{oid_content};

    ghost content = { oid_content };

    fn value_len(&self) -> Result<Length, Error> {
        Ok(Length::new(u32::from(self.len)))
    }

    fn encode_value<W: Writer>(&self, writer: &mut W) -> Result<(), Error> {
        writer.write(self.as_bytes())
    }
}

impl<'a> LawfulValue<'a> for ObjectIdentifier {
    ghost use Rattle.std.specs.Prelude.{refl};
    ghost use Rattle.std.proofs.Common.{sym};

    ghost reads_content = { λ b v h. sym h };

    ghost content_reads = { λ v fits. refl };
}

impl PartialEq for ObjectIdentifier {
    ghost use Rattle.std.specs.Prelude.{◌==◌};
    ghost use Rattle.std.specs.Cmp.Lexicographic.{pointwise};
    ghost use Rattle.std.specs.Cmp.Rules.{comparing};
    ghost use Rattle.std.specs.Ordering.{on};
    ghost use Rattle.std.proofs.Common.{rules};
    ghost use Rattle.der_core.specs.ObjectIdentifier.{oid_content};

    ghost eq = { on oid_content (pointwise ◌==◌) };

    ghost laws = { Prim.search (comparing, rules) };

    fn eq(&self, other: &ObjectIdentifier) -> bool {
        self.as_bytes() == other.as_bytes()
    }
}

impl Eq for ObjectIdentifier {
    ghost use Rattle.std.specs.Cmp.Rules.{comparing};
    ghost use Rattle.std.proofs.Common.{rules};

    ghost laws = { Prim.search (comparing, rules) };
}

impl Ord for ObjectIdentifier {
    ghost use Rattle.std.specs.Cmp.Lexicographic.{slice_cmp};
    ghost use Rattle.std.specs.Cmp.Rules.{comparing};
    ghost use Rattle.std.specs.Ordering.{nat_cmp, on};
    ghost use Rattle.std.proofs.Common.{rules};
    ghost use Rattle.der_core.specs.ObjectIdentifier.{oid_content};

    ghost cmp = { on oid_content (slice_cmp nat_cmp) };

    ghost total = { Prim.search (comparing, rules) };

    ghost matches_partial_cmp = { Prim.search (comparing, rules) };

    ghost matches_eq = { Prim.search (comparing, rules) };

    fn cmp(&self, other: &ObjectIdentifier) -> Ordering {
        self.as_bytes().cmp(other.as_bytes())
    }
}

impl PartialOrd for ObjectIdentifier {
    ghost use Rattle.std.specs.Cmp.Lexicographic.{slice_cmp};
    ghost use Rattle.std.specs.Cmp.Rules.{comparing};
    ghost use Rattle.std.specs.Cmp.{partial_order_from_own_ties};
    ghost use Rattle.std.specs.Ordering.{nat_cmp, on, as_partial_cmp};
    ghost use Rattle.std.proofs.Common.{rules};
    ghost use Rattle.der_core.specs.ObjectIdentifier.{oid_content};

    ghost partial_cmp = { as_partial_cmp (on oid_content (slice_cmp nat_cmp)) };

    ghost laws = { partial_order_from_own_ties (Prim.search (comparing, rules)) (Prim.search (comparing, rules)) };

    fn partial_cmp(&self, other: &ObjectIdentifier) -> Option<Ordering> {
        Some(self.cmp(other))
    }
}

impl Hash for ObjectIdentifier {
    ghost use Rattle.std.specs.Hash as fed;
    ghost use Rattle.std.specs.Cmp.Rules.{hashing};
    ghost use Rattle.std.proofs.Common.{rules};
    ghost use Rattle.der_core.specs.ObjectIdentifier.{oid_content};

    ghost hash_input = { λ v. fed.slice fed.u8 (oid_content v) };

    ghost respects_eq = { Prim.search (hashing, rules) };

    fn hash<H: Hasher>(&self, state: &mut H) {
        self.as_bytes().hash(state);
    }
}

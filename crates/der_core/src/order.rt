//! The orders of DER: by tag, by length, and by content.
ghost use Rattle.std.specs.Prelude.{◌≡◌, ℕ, List, length, Option};
ghost use Rattle.std.specs.declared.cmp.Ordering.{Ordering as Answer};
ghost use Rattle.der_core.specs.Order.{Compared, after_lengths, option_order, content_order, first_then};

use crate::{Any, AnyRef, Encode, EncodeValue, Error, FixedTag, ObjectIdentifier};
use std::cmp::Ordering;

/// The order of encodings, as a SET OF has it (X.690, 11.6): tag, then length, then content.
pub trait DerOrd {
    ghost der_order: { Self → Self → Option Answer };

    /// Compares two encodings. `Overlength` where a content that it reaches is too long to be written.
    fn der_cmp(&self, other: &Self) -> Result<Ordering, Error>
        ensures { Compared (der_order self.now other.now) result };
}

/// The order of contents.
pub trait ValueOrd {
    ghost value_order: { Self → Self → Option Answer };

    /// Compares two contents. `Overlength` where a part that it reaches is too long to be written.
    fn value_cmp(&self, other: &Self) -> Result<Ordering, Error>
        ensures { Compared (value_order self.now other.now) result };
}

impl<T: EncodeValue + FixedTag + ValueOrd> DerOrd for T {
    ghost der_order = { λ a b. after_lengths (T.content a) (T.content b) (T.value_order a b) };

    fn der_cmp(&self, other: &Self) -> Result<Ordering, Error> {
        let length = self.value_len()?;
        match length.cmp(&other.value_len()?) {
            Ordering::Equal => self.value_cmp(other),
            unequal => Ok(unequal),
        }
    }
}

impl<T: DerOrd> DerOrd for Option<T> {
    ghost der_order = { option_order T.der_order };

    fn der_cmp(&self, other: &Self) -> Result<Ordering, Error> {
        match (self, other) {
            (Some(value), Some(other)) => value.der_cmp(other),
            (Some(_), None) => Ok(Ordering::Greater),
            (None, Some(_)) => Ok(Ordering::Less),
            (None, None) => Ok(Ordering::Equal),
        }
    }
}

impl<'a> ValueOrd for AnyRef<'a> {
    ghost value_order = { content_order (λ v. v.value.now) };

    fn value_cmp(&self, other: &Self) -> Result<Ordering, Error> {
        Ok(self.value().cmp(other.value()))
    }
}

impl<'a> DerOrd for AnyRef<'a> {
    ghost use Rattle.std.specs.Ordering.{nat_cmp};

    ghost der_order = { λ a b. first_then (nat_cmp a.tag.byte b.tag.byte) (after_lengths a.value.now b.value.now (content_order (λ v. v.value.now) a b)) };

    fn der_cmp(&self, other: &Self) -> Result<Ordering, Error> {
        match self.tag().cmp(&other.tag()) {
            Ordering::Equal => (),
            unequal => return Ok(unequal),
        }
        match self.value().len().cmp(&other.value().len()) {
            Ordering::Equal => self.value_cmp(other),
            unequal => Ok(unequal),
        }
    }
}

impl ValueOrd for Any {
    ghost value_order = { content_order (λ v. v.value.items) };

    fn value_cmp(&self, other: &Self) -> Result<Ordering, Error> {
        Ok(self.value().cmp(other.value()))
    }
}

impl DerOrd for Any {
    ghost use Rattle.std.specs.Ordering.{nat_cmp};

    ghost der_order = { λ a b. first_then (nat_cmp a.tag.byte b.tag.byte)
        (after_lengths a.value.items b.value.items (content_order (λ v. v.value.items) a b)) };

    fn der_cmp(&self, other: &Self) -> Result<Ordering, Error> {
        self.owned_to_ref().der_cmp(&other.owned_to_ref())
    }
}

impl ValueOrd for ObjectIdentifier {
    ghost use Rattle.der_core.specs.ObjectIdentifier.{oid_content};

    ghost value_order = { content_order oid_content };

    fn value_cmp(&self, other: &Self) -> Result<Ordering, Error> {
        Ok(self.cmp(other))
    }
}

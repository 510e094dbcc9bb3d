//! Laws of values, each as the contract of a function.
ghost use Rattle.std.specs.Prelude.{◌≡◌, ◌++◌, ◌<◌, ◌^◌, ℕ, List, length};
ghost use Rattle.std.specs.Hash as fed;
ghost use Rattle.std.specs.Ordering.{nat_cmp};
ghost use Rattle.identity_io.specs.Comparisons.{AreCopiesSame, AreEqualAs, AreHashedAs, AreOrderedAs};
ghost use Rattle.der_core.specs.Any.{der_of, plain_any, plain_ref};
ghost use Rattle.der_core.specs.Der.{IsTag, IsValue, encode};
ghost use Rattle.der_core.specs.Order.{any_hashed, any_order, bytes_hashed, bytes_order};
ghost use Rattle.der_core.specs.Tag.{byte_of};
ghost use Rattle.der_core.specs.Tags.{integer_tag, bit_string_tag, octet_string_tag, null_tag, oid_tag, utf8_tag, sequence_tag};
ghost use Rattle.der_core.specs.Oid.{oid_text};
ghost use Rattle.der_core.specs.ObjectIdentifier.{oid_content};
ghost use Rattle.der_core.specs.declared.oid.ObjectIdentifier.{ObjectIdentifier as Identifier};

use crate::{Any, AnyRef, Arcs, Decode, Error, Length, ObjectIdentifier, Tag};
use std::hash::Hash;

/// An encoding is that of one tag and one content.
pub fn encoding_has_one_value()
    ensures { (t u : ℕ) (a b : List ℕ) → IsTag t → IsTag u → length (encode t a) < 2 ^ 32 →
        length (encode u b) < 2 ^ 32 → encode t a ≡ encode u b → (t ≡ u) × (a ≡ b) }
{}

/// No value begins another.
pub fn no_value_begins_another()
    ensures { (b c x y : List ℕ) → IsValue b → IsValue c → b ++ x ≡ c ++ y → (b ≡ c) × (x ≡ y) }
{}

/// No encoding of a type begins another of the same type.
pub fn no_encoding_begins_another<'a, T: Decode<'a>>()
    ensures { (b c x y : List ℕ) (v w : T) → T.Reads b v → T.Reads c w → b ++ x ≡ c ++ y → (b ≡ c) × (x ≡ y) }
{}

/// Object identifiers of one text are equal, as `==` compares them.
pub fn equal_texts_are_equal_identifiers()
    ensures { (a b : Identifier) → oid_text (oid_content a) ≡ oid_text (oid_content b) → oid_content a ≡ oid_content b }
{}

/// The tags of the universal types have the numbers of X.690, 8.3 to 8.23.
pub fn tags_are_those_of_their_types()
    ensures integer { Tag.INTEGER ≡ integer_tag }
    ensures bit_string { Tag.BIT_STRING ≡ bit_string_tag }
    ensures octet_string { Tag.OCTET_STRING ≡ octet_string_tag }
    ensures null { Tag.NULL ≡ null_tag }
    ensures oid { Tag.OID ≡ oid_tag }
    ensures utf8_string { Tag.UTF8_STRING ≡ utf8_tag }
    ensures sequence { Tag.SEQUENCE ≡ sequence_tag }
{}

/// Values of any tag are equal exactly where their encodings are, and are ordered by tag and then by content.
pub fn any_values_are_compared_by_tag_and_content()
    ensures equal { AreEqualAs (λ v. der_of (plain_any v)) ⟦<Any as PartialEq>⟧.eq }
    ensures order { AreOrderedAs plain_any any_order ⟦<Any as Ord>⟧.cmp ⟦<Any as PartialOrd>⟧.partial_cmp }
    ensures hash { AreHashedAs plain_any any_hashed ⟦<Any as Hash>⟧.hash_input }
{}

/// The same of values of any tag in borrowed bytes.
pub fn borrowed_values_are_compared_by_tag_and_content()
    ensures equal { AreEqualAs (λ v. der_of (plain_ref v)) ⟦<AnyRef<'static> as PartialEq>⟧.eq }
    ensures order { AreOrderedAs plain_ref any_order ⟦<AnyRef<'static> as Ord>⟧.cmp ⟦<AnyRef<'static> as PartialOrd>⟧.partial_cmp }
    ensures hash { AreHashedAs plain_ref any_hashed ⟦<AnyRef<'static> as Hash>⟧.hash_input }
{}

/// Object identifiers are equal exactly where their contents are, and are ordered by these.
pub fn object_identifiers_are_compared_by_content()
    ensures equal { AreEqualAs oid_content ⟦<ObjectIdentifier as PartialEq>⟧.eq }
    ensures order { AreOrderedAs oid_content bytes_order ⟦<ObjectIdentifier as Ord>⟧.cmp ⟦<ObjectIdentifier as PartialOrd>⟧.partial_cmp }
    ensures hash { AreHashedAs oid_content bytes_hashed ⟦<ObjectIdentifier as Hash>⟧.hash_input }
{}

/// Tags are compared as their bytes.
pub fn tags_are_compared_by_byte()
    ensures equal { AreEqualAs byte_of ⟦<Tag as PartialEq>⟧.eq }
    ensures order { AreOrderedAs byte_of nat_cmp ⟦<Tag as Ord>⟧.cmp ⟦<Tag as PartialOrd>⟧.partial_cmp }
    ensures hash { AreHashedAs byte_of fed.u8 ⟦<Tag as Hash>⟧.hash_input }
{}

/// Lengths are compared as their counts.
pub fn lengths_are_compared_by_count()
    ensures equal { AreEqualAs (λ n. n) ⟦<Length as PartialEq>⟧.eq }
    ensures order { AreOrderedAs (λ n. n) nat_cmp ⟦<Length as Ord>⟧.cmp ⟦<Length as PartialOrd>⟧.partial_cmp }
    ensures hash { AreHashedAs (λ n. n) fed.u32 ⟦<Length as Hash>⟧.hash_input }
{}

/// A copy of a value, of the arcs that are left or of an error is the same.
pub fn copies_are_the_same()
    ensures any { AreCopiesSame ⟦<AnyRef<'static> as Clone>⟧.is_clone }
    ensures oid { AreCopiesSame ⟦<ObjectIdentifier as Clone>⟧.is_clone }
    ensures arcs { AreCopiesSame ⟦<Arcs<'static> as Clone>⟧.is_clone }
    ensures tag { AreCopiesSame ⟦<Tag as Clone>⟧.is_clone }
    ensures count { AreCopiesSame ⟦<Length as Clone>⟧.is_clone }
    ensures error { AreCopiesSame ⟦<Error as Clone>⟧.is_clone }
{}

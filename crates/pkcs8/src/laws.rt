//! Laws of private keys, each as the contract of a function.
ghost use Rattle.std.specs.Prelude.{◌≡◌, ◌↔◌, ◌<◌, ◌^◌, ℕ, nat_eq, List, length, true, IsSome};
ghost use Rattle.std.specs.Bool.{Decides};
ghost use Rattle.std.specs.Cmp.Lexicographic.{pointwise};
ghost use Rattle.identity_io.specs.Comparisons.{AreCopiesSame};
ghost use Rattle.der_core.specs.declared.any.Any.{Any as AnyValue};
ghost use Rattle.der_core.specs.declared.any.AnyRef.{AnyRef as AnyRefValue};
ghost use Rattle.der_small.specs.declared.bit_string.BitString.{BitString as BitsValue};
ghost use Rattle.der_small.specs.declared.bit_string.BitStringRef.{BitStringRef as BitsRefValue};
ghost use Rattle.der_small.specs.declared.octet_string.OctetString.{OctetString as OctetsValue};
ghost use Rattle.der_small.specs.declared.octet_string.OctetStringRef.{OctetStringRef as OctetsRefValue};
ghost use Rattle.der_core.specs.Readings.{AreReadBack};
ghost use Rattle.pkcs8.specs.Attributes.{attributes_bytes, attributes_bytes_ref};
ghost use Rattle.pkcs8.specs.PlainPrivateKey.{PlainPrivateKey, ReadsPrivateKey, private_key_der, plain_private_key, plain_private_key_ref};
ghost use Rattle.pkcs8.specs.Same.{same_private_key};
ghost use Rattle.pkcs8.specs.declared.attributes.Attributes.{Attributes as AttributesValue};
ghost use Rattle.pkcs8.specs.declared.attributes.AttributesRef.{AttributesRef as AttributesRefValue};
ghost use Rattle.pkcs8.specs.declared.error.KeyError.{KeyError as Fault};
ghost use Rattle.pkcs8.specs.declared.private_key_info.PrivateKeyInfo.{PrivateKeyInfo as KeyOf};
ghost use Rattle.pkcs8.specs.declared.version.Version.{Version as VersionValue};

use crate::{
    Attributes, AttributesRef, BitStringLike, Error, KeyError, PrivateKeyInfo, PrivateKeyInfoOwned,
    PrivateKeyInfoRef, Version,
};
use der_small::{Choice, Decode, Encode, FixedTag, LawfulValue};
use spki::AlgorithmIdentifier;
use std::fmt;

/// What is written of a private key is read as that key, of whatever lawful types its parts are.
pub fn written_keys_are_read<
    'a,
    Params: Choice<'a>,
    Key: LawfulValue<'a> + FixedTag,
    PubKey: LawfulValue<'a> + BitStringLike,
    Attrs: LawfulValue<'a>,
>()
    ensures { ((k : PubKey) → PubKey.bits k ≡ PubKey.content k) →
        AreReadBack ⟦<PrivateKeyInfo<Params, Key, PubKey, Attrs> as Decode<'a>>⟧.Reads ⟦<PrivateKeyInfo<Params, Key, PubKey, Attrs> as Encode>⟧.encoding }
{}

/// Private keys that are read from the same bytes are written alike, of whatever lawful types their
/// parts are. So what is read of what was written of a key is that key.
pub fn read_keys_are_written_alike<
    'a,
    Params: Choice<'a>,
    Key: LawfulValue<'a> + FixedTag,
    PubKey: LawfulValue<'a> + BitStringLike,
    Attrs: LawfulValue<'a>,
>()
    ensures { ((k : PubKey) → PubKey.bits k ≡ PubKey.content k) →
        (bytes : List ℕ) (v w : KeyOf Params Key PubKey Attrs) →
        ⟦<PrivateKeyInfo<Params, Key, PubKey, Attrs> as Decode<'a>>⟧.Reads bytes v →
        ⟦<PrivateKeyInfo<Params, Key, PubKey, Attrs> as Decode<'a>>⟧.Reads bytes w →
        ⟦<PrivateKeyInfo<Params, Key, PubKey, Attrs> as Encode>⟧.encoding v ≡ ⟦<PrivateKeyInfo<Params, Key, PubKey, Attrs> as Encode>⟧.encoding w }
{}

/// A private key that was read, written and read again is the same key, and no other is read.
pub fn read_keys_are_read_again()
    ensures written { (bytes : List ℕ) (key : PlainPrivateKey) → ReadsPrivateKey bytes key →
        length (private_key_der key) < 2 ^ 32 → ReadsPrivateKey (private_key_der key) key }
    ensures one { (bytes : List ℕ) (key other : PlainPrivateKey) → ReadsPrivateKey bytes key → ReadsPrivateKey (private_key_der key) other → other ≡ key }
{}

/// The test of sameness is true exactly where two private keys are equal as plain data.
pub fn same_keys_are_equal()
    ensures { (a b : PlainPrivateKey) → Decides (same_private_key a b) (a ≡ b) }
{}

/// Private keys are equal exactly where all four of their parts are the same as plain data.
pub fn equal_keys_are_the_same()
    ensures borrowed { (a b : KeyOf AnyRefValue OctetsRefValue BitsRefValue AttributesRefValue) →
        ⟦<PrivateKeyInfoRef<'static> as PartialEq>⟧.eq a b ≡ same_private_key (plain_private_key_ref a) (plain_private_key_ref b) }
    ensures owned { (a b : KeyOf AnyValue OctetsValue BitsValue AttributesValue) →
        ⟦<PrivateKeyInfoOwned as PartialEq>⟧.eq a b ≡ same_private_key (plain_private_key a) (plain_private_key b) }
{}

/// Attributes are equal exactly where their contents are the same, and a copy of attributes is these.
pub fn equal_attributes_are_the_same()
    ensures borrowed { (a b : AttributesRefValue) →
        ⟦<AttributesRef<'static> as PartialEq>⟧.eq a b ≡ pointwise nat_eq (attributes_bytes_ref a) (attributes_bytes_ref b) }
    ensures owned { (a b : AttributesValue) → ⟦<Attributes as PartialEq>⟧.eq a b ≡ pointwise nat_eq (attributes_bytes a) (attributes_bytes b) }
    ensures copied { AreCopiesSame ⟦<AttributesRef<'static> as Clone>⟧.is_clone }
{}

/// Private keys are equal exactly where their algorithms, their private keys, their attributes and their public keys are, of whatever types these are.
pub fn equal_keys_are_equal_in_each_part<
    Params: PartialEq,
    Key: PartialEq,
    PubKey: PartialEq,
    Attrs: PartialEq,
>()
    ensures { (a b : KeyOf Params Key PubKey Attrs) →
        (⟦<PrivateKeyInfo<Params, Key, PubKey, Attrs> as PartialEq>⟧.eq a b ≡ true) ↔
        ((⟦<AlgorithmIdentifier<Params> as PartialEq>⟧.eq a.algorithm b.algorithm ≡ true) × (Key.eq a.private_key b.private_key ≡ true) ×
        (⟦<Option<Attrs> as PartialEq>⟧.eq a.attributes b.attributes ≡ true) ×
        (⟦<Option<PubKey> as PartialEq>⟧.eq a.public_key b.public_key ≡ true)) }
{}

/// What `Debug` shows of a private key is known whatever its parts are, and is the same of keys whose private octets and attributes alone differ.
pub fn shown_keys_hide_octets_and_attributes<Params: Encode, Key, PubKey: BitStringLike, Attrs>()
    ensures shown { (v : KeyOf Params Key PubKey Attrs) → IsSome (⟦<PrivateKeyInfo<Params, Key, PubKey, Attrs> as fmt::Debug>⟧.debug_output v) }
    ensures hidden { (a b : KeyOf Params Key PubKey Attrs) → a.algorithm ≡ b.algorithm →
        a.public_key ≡ b.public_key →
        ⟦<PrivateKeyInfo<Params, Key, PubKey, Attrs> as fmt::Debug>⟧.debug_output a ≡
        ⟦<PrivateKeyInfo<Params, Key, PubKey, Attrs> as fmt::Debug>⟧.debug_output b }
{}

/// A copy of a private key is that key, where copies of its parts are the parts.
pub fn copied_keys_are_the_same<Params: Clone, Key: Clone, PubKey: Clone, Attrs: Clone>()
    ensures { AreCopiesSame Params.is_clone → AreCopiesSame Key.is_clone → AreCopiesSame PubKey.is_clone →
        AreCopiesSame Attrs.is_clone →
        AreCopiesSame ⟦<PrivateKeyInfo<Params, Key, PubKey, Attrs> as Clone>⟧.is_clone }
{}

/// Versions, and what is wrong with a key, are equal exactly where they are the same, and a copy of these or of an error is the same.
pub fn copied_errors_are_the_same()
    ensures error { AreCopiesSame ⟦<Error as Clone>⟧.is_clone }
    ensures version { AreCopiesSame ⟦<Version as Clone>⟧.is_clone }
    ensures equal_versions { (a b : VersionValue) → (⟦<Version as PartialEq>⟧.eq a b ≡ true) ↔ (a ≡ b) }
    ensures key_error { AreCopiesSame ⟦<KeyError as Clone>⟧.is_clone }
    ensures equal_key_errors { (a b : Fault) → (⟦<KeyError as PartialEq>⟧.eq a b ≡ true) ↔ (a ≡ b) }
{}

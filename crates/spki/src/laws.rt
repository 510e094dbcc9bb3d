//! Laws of public keys, each as the contract of a function.
ghost use Rattle.std.specs.Prelude.{◌≡◌, ℕ, ◌++◌, ◌&&◌, List, Option, Result as Answer, Ok, true, IsOkAnd, IsSomeAnd};
ghost use Rattle.std.specs.Bool.{Decides};
ghost use Rattle.std.specs.Ordering.{ordering_then};
ghost use Rattle.identity_io.specs.Comparisons.{AreCopiesSame};
ghost use Rattle.der_core.specs.Any.{PlainAny, plain_any, plain_ref};
ghost use Rattle.der_core.specs.ObjectIdentifier.{oid_content};
ghost use Rattle.der_core.specs.declared.any.Any.{Any as AnyValue};
ghost use Rattle.der_core.specs.declared.any.AnyRef.{AnyRef as AnyRefValue};
ghost use Rattle.der_core.specs.declared.error.Error.{Error as DerError};
ghost use Rattle.der_core.specs.declared.oid.ObjectIdentifier.{ObjectIdentifier};
ghost use Rattle.der_small.specs.declared.bit_string.BitString.{BitString as BitsValue};
ghost use Rattle.der_small.specs.declared.bit_string.BitStringRef.{BitStringRef as BitsRefValue};
ghost use Rattle.der_small.specs.Bits.{PlainBits};
ghost use Rattle.sha2.specs.Sha256.{sha256};
ghost use Rattle.spki.specs.AlgorithmOids.{ParametersOid, AreOids};
ghost use Rattle.spki.specs.WrittenAlike.{AreWrittenAlike};
ghost use Rattle.spki.specs.PlainAlgorithm.{PlainAlgorithm, plain_algorithm};
ghost use Rattle.spki.specs.PlainPublicKey.{PlainPublicKey, plain_public_key, plain_public_key_ref, public_key_der};
ghost use Rattle.spki.specs.PublicKey.{public_key_encoding};
ghost use Rattle.spki.specs.Same.{same_algorithm, same_any, same_bits, same_public_key};
ghost use Rattle.spki.specs.declared.algorithm.AlgorithmIdentifier.{AlgorithmIdentifier as IdentifierOf};
ghost use Rattle.spki.specs.declared.spki.SubjectPublicKeyInfo.{SubjectPublicKeyInfo as KeyOf};

use crate::{
    AlgorithmIdentifier, AlgorithmIdentifierOwned, AlgorithmIdentifierRef, Error,
    SubjectPublicKeyInfo, SubjectPublicKeyInfoOwned, SubjectPublicKeyInfoRef,
};
use der_small::{Choice, Decode, Encode, Lawful, ObjectIdentifier};
use std::hash::Hash;

/// Writing a public key that was read gives the same bytes.
pub fn read_keys_are_written_again<'a, Params: Choice<'a>, Key: Lawful<'a>>()
    ensures { (bytes : List ℕ) (v : KeyOf Params Key) →
        ⟦<SubjectPublicKeyInfo<Params, Key> as Decode<'a>>⟧.Reads bytes v →
        public_key_encoding Params.encoding Key.encoding v ≡ bytes }
{}

/// The parameters as an object identifier are the second of the two identifiers.
pub fn parameters_oid_is_second_of_oids()
    ensures { (parameters : Option PlainAny) (oid : ObjectIdentifier) (oids : Answer (ObjectIdentifier × Option ObjectIdentifier) DerError) →
        ParametersOid parameters (Ok oid) → AreOids parameters oids →
        IsOkAnd oids (λ both. IsSomeAnd both.1 (λ second. oid_content second ≡ oid_content oid)) }
{}

/// Equal public keys have one fingerprint.
pub fn equal_keys_have_one_fingerprint()
    ensures borrowed { (a b : KeyOf AnyRefValue BitsRefValue) →
        ⟦<SubjectPublicKeyInfoRef<'static> as PartialEq>⟧.eq a b ≡ true →
        sha256 (public_key_der (plain_public_key_ref a)) ≡ sha256 (public_key_der (plain_public_key_ref b)) }
    ensures owned { (a b : KeyOf AnyValue BitsValue) → ⟦<SubjectPublicKeyInfoOwned as PartialEq>⟧.eq a b ≡ true →
        sha256 (public_key_der (plain_public_key a)) ≡ sha256 (public_key_der (plain_public_key b)) }
{}

/// Equal public keys have one fingerprint, of whatever types their parts are whose equal values are written alike.
pub fn equal_parts_have_one_fingerprint<Params: Encode + PartialEq, Key: Encode + PartialEq>()
    ensures { AreWrittenAlike Params.eq Params.encoding → AreWrittenAlike Key.eq Key.encoding →
        (a b : KeyOf Params Key) → ⟦<SubjectPublicKeyInfo<Params, Key> as PartialEq>⟧.eq a b ≡ true →
        sha256 (public_key_encoding Params.encoding Key.encoding a) ≡ sha256 (public_key_encoding Params.encoding Key.encoding b) }
{}

/// The tests of sameness are true exactly where what they compare is equal as plain data.
pub fn same_parts_are_equal()
    ensures any { (a b : PlainAny) → Decides (same_any a b) (a ≡ b) }
    ensures bits { (a b : PlainBits) → Decides (same_bits a b) (a ≡ b) }
    ensures algorithm { (a b : PlainAlgorithm) → Decides (same_algorithm a b) (a ≡ b) }
    ensures public_key { (a b : PlainPublicKey) → Decides (same_public_key a b) (a ≡ b) }
{}

/// Identifiers are equal exactly where they are the same as plain data.
pub fn equal_identifiers_are_the_same()
    ensures borrowed { (a b : IdentifierOf AnyRefValue) →
        ⟦<AlgorithmIdentifierRef<'static> as PartialEq>⟧.eq a b ≡ same_algorithm (plain_algorithm plain_ref a) (plain_algorithm plain_ref b) }
    ensures owned { (a b : IdentifierOf AnyValue) →
        ⟦<AlgorithmIdentifierOwned as PartialEq>⟧.eq a b ≡ same_algorithm (plain_algorithm plain_any a) (plain_algorithm plain_any b) }
{}

/// Public keys are equal exactly where they are the same as plain data.
pub fn equal_public_keys_are_the_same()
    ensures borrowed { (a b : KeyOf AnyRefValue BitsRefValue) →
        ⟦<SubjectPublicKeyInfoRef<'static> as PartialEq>⟧.eq a b ≡ same_public_key (plain_public_key_ref a) (plain_public_key_ref b) }
    ensures owned { (a b : KeyOf AnyValue BitsValue) →
        ⟦<SubjectPublicKeyInfoOwned as PartialEq>⟧.eq a b ≡ same_public_key (plain_public_key a) (plain_public_key b) }
{}

/// Identifiers are compared by the algorithm's identifier first, and then by their parameters.
pub fn identifiers_are_ordered_by_oid_first<Params: Ord>()
    ensures equal { (a b : IdentifierOf Params) →
        ⟦<AlgorithmIdentifier<Params> as PartialEq>⟧.eq a b ≡
        (⟦<ObjectIdentifier as PartialEq>⟧.eq a.oid b.oid && ⟦<Option<Params> as PartialEq>⟧.eq a.parameters b.parameters) }
    ensures order { (a b : IdentifierOf Params) →
        ⟦<AlgorithmIdentifier<Params> as Ord>⟧.cmp a b ≡
        ordering_then (⟦<ObjectIdentifier as Ord>⟧.cmp a.oid b.oid) (⟦<Option<Params> as Ord>⟧.cmp a.parameters b.parameters) }
{}

/// An identifier feeds a hasher with both of its parts.
pub fn identifiers_hash_both_parts<Params: Hash>()
    ensures { (v : IdentifierOf Params) →
        ⟦<AlgorithmIdentifier<Params> as Hash>⟧.hash_input v ≡
        ⟦<ObjectIdentifier as Hash>⟧.hash_input v.oid ++ ⟦<Option<Params> as Hash>⟧.hash_input v.parameters }
{}

/// Public keys are equal exactly where both of their parts are, and feed a hasher with both.
pub fn public_keys_are_compared_in_both_parts<Params: Hash, Key: Hash>()
    ensures equal { (a b : KeyOf Params Key) →
        ⟦<SubjectPublicKeyInfo<Params, Key> as PartialEq>⟧.eq a b ≡
        (⟦<AlgorithmIdentifier<Params> as PartialEq>⟧.eq a.algorithm b.algorithm && Key.eq a.subject_public_key b.subject_public_key) }
    ensures hash { (v : KeyOf Params Key) →
        ⟦<SubjectPublicKeyInfo<Params, Key> as Hash>⟧.hash_input v ≡
        ⟦<AlgorithmIdentifier<Params> as Hash>⟧.hash_input v.algorithm ++ Key.hash_input v.subject_public_key }
{}

/// A copy of an identifier is that identifier, where copies of its parameters are the parameters.
pub fn copied_identifiers_are_the_same<Params: Clone>()
    ensures { AreCopiesSame Params.is_clone → AreCopiesSame ⟦<AlgorithmIdentifier<Params> as Clone>⟧.is_clone }
{}

/// A copy of a public key is that key, where copies of its parts are the parts.
pub fn copied_public_keys_are_the_same<Params: Clone, Key: Clone>()
    ensures { AreCopiesSame Params.is_clone → AreCopiesSame Key.is_clone → AreCopiesSame ⟦<SubjectPublicKeyInfo<Params, Key> as Clone>⟧.is_clone }
{}

/// A copy of an error is that error.
pub fn copied_errors_are_the_same()
    ensures { AreCopiesSame ⟦<Error as Clone>⟧.is_clone }
{}

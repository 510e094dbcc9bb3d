//! Laws of values, each as the contract of a function: those of `der_core`, and how the types of this crate are compared.
ghost use Rattle.std.specs.Hash as fed;
ghost use Rattle.identity_io.specs.Comparisons.{AreCopiesSame, AreEqualAs, AreHashedAs, AreOrderedAs};
ghost use Rattle.der_core.specs.Order.{bytes_hashed, bytes_order};
ghost use Rattle.der_small.specs.BitString.{plain_bits, plain_bits_ref};
ghost use Rattle.der_small.specs.BitsOrder.{bits_hashed, bits_order};
ghost use Rattle.der_small.specs.Document.{document_bytes};
ghost use Rattle.der_small.specs.OctetString.{octets, octets_ref};
ghost use Rattle.der_small.specs.SecretDocument.{secret_bytes};
ghost use Rattle.der_small.specs.Utf8.{text_ref};

use crate::{
    BitString, BitStringRef, Document, OctetString, OctetStringRef, SecretDocument, Utf8Ref,
};
use der_core::Encode;
pub use der_core::laws::{
    any_values_are_compared_by_tag_and_content, borrowed_values_are_compared_by_tag_and_content,
    copies_are_the_same, encoding_has_one_value, equal_texts_are_equal_identifiers,
    lengths_are_compared_by_count, no_encoding_begins_another, no_value_begins_another,
    object_identifiers_are_compared_by_content, tags_are_compared_by_byte,
    tags_are_those_of_their_types,
};
use std::hash::Hash;

/// Bit strings are equal exactly where their encodings are, and are ordered by unused bits and then by octets.
pub fn bit_strings_are_compared_by_unused_bits_and_octets()
    ensures equal { AreEqualAs ⟦<BitString as Encode>⟧.encoding ⟦<BitString as PartialEq>⟧.eq }
    ensures order { AreOrderedAs plain_bits bits_order ⟦<BitString as Ord>⟧.cmp ⟦<BitString as PartialOrd>⟧.partial_cmp }
    ensures hash { AreHashedAs plain_bits bits_hashed ⟦<BitString as Hash>⟧.hash_input }
{}

/// The same of bit strings in borrowed bytes.
pub fn borrowed_bit_strings_are_compared_by_unused_bits_and_octets()
    ensures equal { AreEqualAs ⟦<BitStringRef<'static> as Encode>⟧.encoding ⟦<BitStringRef<'static> as PartialEq>⟧.eq }
    ensures order { AreOrderedAs plain_bits_ref bits_order ⟦<BitStringRef<'static> as Ord>⟧.cmp ⟦<BitStringRef<'static> as PartialOrd>⟧.partial_cmp }
    ensures hash { AreHashedAs plain_bits_ref bits_hashed ⟦<BitStringRef<'static> as Hash>⟧.hash_input }
{}

/// Octet strings are equal exactly where their encodings are, and are ordered by octets.
pub fn octet_strings_are_compared_by_octets()
    ensures equal { AreEqualAs ⟦<OctetString as Encode>⟧.encoding ⟦<OctetString as PartialEq>⟧.eq }
    ensures order { AreOrderedAs octets bytes_order ⟦<OctetString as Ord>⟧.cmp ⟦<OctetString as PartialOrd>⟧.partial_cmp }
    ensures hash { AreHashedAs octets bytes_hashed ⟦<OctetString as Hash>⟧.hash_input }
{}

/// The same of octet strings in borrowed bytes.
pub fn borrowed_octet_strings_are_compared_by_octets()
    ensures equal { AreEqualAs ⟦<OctetStringRef<'static> as Encode>⟧.encoding ⟦<OctetStringRef<'static> as PartialEq>⟧.eq }
    ensures order { AreOrderedAs octets_ref bytes_order ⟦<OctetStringRef<'static> as Ord>⟧.cmp ⟦<OctetStringRef<'static> as PartialOrd>⟧.partial_cmp }
    ensures hash { AreHashedAs octets_ref bytes_hashed ⟦<OctetStringRef<'static> as Hash>⟧.hash_input }
{}

/// Texts are equal exactly where their encodings are, and are ordered by the bytes of UTF-8.
pub fn texts_are_compared_by_bytes()
    ensures equal { AreEqualAs ⟦<Utf8Ref<'static> as Encode>⟧.encoding ⟦<Utf8Ref<'static> as PartialEq>⟧.eq }
    ensures order { AreOrderedAs text_ref bytes_order ⟦<Utf8Ref<'static> as Ord>⟧.cmp ⟦<Utf8Ref<'static> as PartialOrd>⟧.partial_cmp }
    ensures hash { AreHashedAs text_ref fed.str ⟦<Utf8Ref<'static> as Hash>⟧.hash_input }
{}

/// Documents are compared by all their bytes.
pub fn documents_are_compared_by_bytes()
    ensures equal { AreEqualAs document_bytes ⟦<Document as PartialEq>⟧.eq }
    ensures order { AreOrderedAs document_bytes bytes_order ⟦<Document as Ord>⟧.cmp ⟦<Document as PartialOrd>⟧.partial_cmp }
    ensures hash { AreHashedAs document_bytes bytes_hashed ⟦<Document as Hash>⟧.hash_input }
{}

/// Secret documents are compared by all their bytes.
pub fn secret_documents_are_compared_by_bytes()
    ensures equal { AreEqualAs secret_bytes ⟦<SecretDocument as PartialEq>⟧.eq }
    ensures order { AreOrderedAs secret_bytes bytes_order ⟦<SecretDocument as Ord>⟧.cmp ⟦<SecretDocument as PartialOrd>⟧.partial_cmp }
    ensures hash { AreHashedAs secret_bytes bytes_hashed ⟦<SecretDocument as Hash>⟧.hash_input }
{}

/// A copy of a string in borrowed bytes is that string.
pub fn copied_strings_are_the_same()
    ensures bits { AreCopiesSame ⟦<BitStringRef<'static> as Clone>⟧.is_clone }
    ensures octets { AreCopiesSame ⟦<OctetStringRef<'static> as Clone>⟧.is_clone }
    ensures texts { AreCopiesSame ⟦<Utf8Ref<'static> as Clone>⟧.is_clone }
{}

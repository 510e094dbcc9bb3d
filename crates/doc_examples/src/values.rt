//! Values in DER.
use der_small::{Decode, Document, OctetStringRef, Utf8Ref};
use std::alloc::Global;
use update_document::decode_all;

// cut: text_document
/// The document of one text.
pub fn text_document(alloc: Global, text: &str) -> der_small::Result<Document> {
    Document::encode_msg(alloc, &Utf8Ref::new(text)?)
}
// end

// cut: octets_of
/// How many octets a document holds, where it is one octet string and nothing more.
pub fn octets_of(document: &[u8]) -> der_small::Result<usize> {
    Ok(OctetStringRef::from_der(document)?.as_bytes().len())
}
// end

// cut: numbers_of
/// The numbers of one byte that stand one behind the other.
pub fn numbers_of(alloc: Global, content: &[u8]) -> der_small::Result<Vec<u8>> {
    decode_all(alloc, content)
}
// end

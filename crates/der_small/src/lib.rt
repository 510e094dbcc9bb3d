//! Values in DER (X.690): bit strings, octet strings, texts, small integers, object identifiers and
//! values of any tag, each in borrowed bytes and most with bytes of their own, the traits by which
//! further types are read and written, and documents of one value with their files.
//!
//! ```rust
//! /// The document of one text.
//! pub fn text_document(alloc: Global, text: &str) -> der_small::Result<Document> {
//!     Document::encode_msg(alloc, &Utf8Ref::new(text)?)
//! }
//! ```
#![tactic(auto)]

mod bit_string;
mod document;
mod file;
pub mod laws;
mod octet_string;
mod secret_document;
mod threads;
mod utf8;

pub use bit_string::{BitString, BitStringRef};
pub use der_core::{
    Any, AnyRef, Arcs, Choice, Cursor, Decode, DecodeValue, DerOrd, Encode, EncodeValue, Error,
    FixedTag, Lawful, LawfulValue, Length, ObjectIdentifier, Result, Tag, ValueOrd, VecWriter,
    Writer, encode_tagged, field_at, tagged_len,
};
pub use document::Document;
pub use octet_string::{OctetString, OctetStringRef};
pub use secret_document::SecretDocument;
pub use utf8::Utf8Ref;

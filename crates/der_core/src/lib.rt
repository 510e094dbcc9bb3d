//! The base of DER (X.690): tags, lengths, values of any tag, object identifiers, a reader over
//! borrowed bytes, and the traits by which a type says what it is read from and written as.
//!
//! ```rust
//! /// How many octets a document holds, where it is one octet string and nothing more.
//! pub fn octets_of(document: &[u8]) -> der_small::Result<usize> {
//!     Ok(OctetStringRef::from_der(document)?.as_bytes().len())
//! }
//! ```
//!
//! `crates/der_tests/src/visit.rt` has a type of three fields, read and written, as an example of a type of one's own.
#![tactic(auto)]

mod any;
mod cursor;
mod decode;
mod encode;
mod error;
mod header;
mod integer;
pub mod laws;
mod length;
mod oid;
mod order;
mod tag;
mod threads;
mod writer;

pub use any::{Any, AnyRef};
pub use cursor::{Cursor, field_at};
pub use decode::{Choice, Decode, DecodeValue, FixedTag, Lawful, LawfulValue};
pub use encode::{Encode, EncodeValue, encode_tagged, tagged_len};
pub use error::Error;
pub use length::Length;
pub use oid::{Arcs, ObjectIdentifier};
pub use order::{DerOrd, ValueOrd};
pub use tag::Tag;
pub use writer::{VecWriter, Writer};

/// What a call of this crate answers.
pub type Result<T> = std::result::Result<T, Error>;

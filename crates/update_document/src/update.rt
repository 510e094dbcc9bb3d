//! Reading an update document.
ghost use Rattle.der_core.specs.Decode.{FromDerOwned};
ghost use Rattle.update_document.specs.Refs.{written_update};
ghost use Rattle.update_document.specs.Written.{ReadsUpdate};

use crate::document::{DocumentFields, read_document};
use crate::fields::{BundleFields, EntryFields};
use der_core::Error;
use der_small::{OctetStringRef, Utf8Ref};
use pkcs8::PrivateKeyInfoRef;
use spki::SubjectPublicKeyInfoRef;
use std::alloc::Global;

/// An identity as an update document writes it: the text of its SPIFFE ID, its private key and its public key.
pub type EntryRef<'a> = EntryFields<
    Utf8Ref<'a>,
    PrivateKeyInfoRef<'a>,
    SubjectPublicKeyInfoRef<'a>,
>;

/// A bundle as an update document writes it: the text of its trust domain, and its key set (RFC 7517, section 5).
pub type BundleRef<'a> = BundleFields<Utf8Ref<'a>, OctetStringRef<'a>>;

/// What an update document writes, in borrowed bytes.
pub type UpdateFields<'a> = DocumentFields<'a, EntryRef<'a>, BundleRef<'a>>;

/// Reads all of the bytes as one update document. No rule on what it writes is tried. `Malformed` where the bytes begin with no document,
/// `TrailingData` where they have more behind it, `OutOfMemory`.
pub fn read_update(alloc: Global, bytes: &[u8]) -> Result<UpdateFields<'_>, Error>
    ensures { FromDerOwned written_update ReadsUpdate bytes.now result }
{
    read_document(alloc, bytes)
}

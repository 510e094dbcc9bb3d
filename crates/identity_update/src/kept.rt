//! What is kept of entries beside their encodings.
use crate::place::Place;
use der_core::{ObjectIdentifier, Tag};
use spiffe_id::SpiffeId;

/// Where a value of any tag stands.
#[derive(Clone, Copy, Debug)]
pub(crate) struct KeptAny {
    pub(crate) tag: Tag,
    pub(crate) content: Place,
}

/// An entry of a lawful update. Its two keys have one algorithm, and a public key in the private document is the entry's, so each is kept once.
#[derive(Drop)]
pub(crate) struct KeptEntry {
    pub(crate) id: SpiffeId,
    pub(crate) oid: ObjectIdentifier,
    pub(crate) parameters: Option<KeptAny>,
    pub(crate) octets: Place,
    pub(crate) attributes: Option<Place>,
    pub(crate) holds_public_key: bool,
    pub(crate) unused_bits: u8,
    pub(crate) bits: Place,
}

/// Entries that break no rule of their own: what the document has of them, one behind the other, and where their parts stand in it.
#[derive(Drop)]
pub(crate) struct KeptEntries {
    pub(crate) written: Vec<u8>,
    pub(crate) entries: Vec<KeptEntry>,
}

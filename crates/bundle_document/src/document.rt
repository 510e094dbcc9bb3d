//! Bundle documents as values.
ghost use Rattle.std.specs.Prelude.{◌≡◌, Ok, IfOk, map, true, false};
ghost use Rattle.std.specs.List.{list_all};
ghost use Rattle.serde_json.specs.View.{view, items_view, items_of};
ghost use Rattle.serde_json.specs.Written.{items_have_float};
ghost use Rattle.spiffe_bundle.specs.KeySet.{by_key_id, key_set_of};
ghost use Rattle.bundle_document.specs.Keys.{key_set_value, is_jwt_key, is_named};
ghost use Rattle.bundle_document.specs.Document.{IsReadable, key_set_text, plain_document};

use serde_json::{Map, Value, put};
use spiffe_json::write_json;
use std::alloc::{AllocError, Global};
use std::marker::Model;

/// What a trust domain publishes at its bundle endpoint (SPIFFE Trust Domain and Bundle, section 4): its keys for
/// tokens, as an update takes them, and what else it says of itself.
#[derive(Drop)]
pub struct BundleDocument {
    pub(crate) sequence: Option<u64>,
    pub(crate) refresh_hint: Option<u64>,
    x509_count: usize,
    ignored_count: usize,
    pub(crate) key_set: Value,
    jwks: Vec<u8>,
}

impl Model for BundleDocument {
    ghost use Rattle.std.specs.Prelude.{◌≡◌};
    ghost use Rattle.serde_json.specs.View.{view as json_view};
    ghost use Rattle.bundle_document.specs.Keys.{key_set_value};
    ghost use Rattle.bundle_document.specs.Document.{Document, IsDocument, keys_listed, plain_document};

    ghost Value = { Document };

    ghost view = { λ d. plain_document d.sequence d.refresh_hint d.x509_count d.ignored_count (keys_listed (json_view d.key_set)) };

    ghost invariant = { λ d. (json_view d.key_set ≡ key_set_value (keys_listed (json_view d.key_set)))
        × IsDocument (keys_listed (json_view d.key_set)) d.jwks.items };
}

impl BundleDocument {
    // The document with these numbers and these keys for tokens.
    pub(crate) fn with_keys(
        alloc: Global,
        sequence: Option<u64>,
        refresh_hint: Option<u64>,
        x509_count: usize,
        ignored_count: usize,
        keys: Vec<Value>,
    ) -> Result<Self, AllocError>
        requires whole { items_have_float (items_view keys.items) ≡ false }
        requires jwt { list_all is_jwt_key (map view keys.items) ≡ true }
        requires named { list_all is_named (map view keys.items) ≡ true }
        ensures { IfOk result (λ d. d ≡ plain_document sequence refresh_hint x509_count ignored_count (map view keys.items)) }
    {
        let key_set = key_set_of(alloc, keys)?;
        let jwks = write_json(alloc, &key_set)?;
        Ok(BundleDocument {
            sequence,
            refresh_hint,
            x509_count,
            ignored_count,
            key_set,
            jwks,
        })
    }

    /// `spiffe_sequence`: it rises with each change of the bundle.
    pub fn sequence(&self) -> Option<u64>
        ensures { result ≡ self.now.sequence }
    {
        self.sequence
    }

    /// `spiffe_refresh_hint`: after how many seconds to look for a newer document.
    pub fn refresh_hint(&self) -> Option<u64>
        ensures { result ≡ self.now.refresh_hint }
    {
        self.refresh_hint
    }

    /// How many keys it had that verify X.509-SVIDs. They aren't kept.
    pub fn x509_count(&self) -> usize
        ensures { result ≡ self.now.x509_count }
    {
        self.x509_count
    }

    /// How many elements of `keys` had no use that is known. They aren't kept.
    pub fn ignored_count(&self) -> usize
        ensures { result ≡ self.now.ignored_count }
    {
        self.ignored_count
    }

    /// The key set (RFC 7517, section 5) of its keys for tokens, as JSON without blanks: what a bundle of an
    /// update holds.
    pub fn jwks(&self) -> &[u8]
        ensures json { result.now ≡ key_set_text self.now.keys }
        ensures accepted { IsReadable self.now → key_set_of result.now ≡ Ok (by_key_id self.now.keys) }
    {
        self.jwks.as_slice()
    }
}

// A key set of these keys.
fn key_set_of(alloc: Global, keys: Vec<Value>) -> Result<Value, AllocError>
    ensures { IfOk result (λ v. view v ≡ key_set_value (map view keys.items)) }
{
    let mut members = Map::new(alloc);
    put(&mut members, alloc, "keys", Value::Array(keys))?;
    Ok(Value::Object(members))
}

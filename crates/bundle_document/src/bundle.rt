//! Documents of bundles.
ghost use Rattle.std.specs.Prelude.{◌≡◌, IfOk, IfErr, map, true, false};
ghost use Rattle.std.specs.List.{list_all};
ghost use Rattle.std.specs.Map.{values_of};
ghost use Rattle.serde_json.specs.View.{view, items_view};
ghost use Rattle.serde_json.specs.Written.{has_float, items_have_float};
ghost use Rattle.bundle_document.specs.Keys.{is_jwt_key, is_named};
ghost use Rattle.bundle_document.specs.Reading.{for_tokens, key_of, document_of_bundle};

use crate::document::BundleDocument;
use crate::error::DocumentError;
use serde_json::{Value, put};
use spiffe_bundle::{JwtAuthority, JwtBundle};
use spiffe_json::{ReadError, read_json};
use std::alloc::{AllocError, Global};

impl BundleDocument {
    /// The document that a trust domain publishes of a bundle: its authorities as keys for tokens, ascending by key
    /// ID. A JWK nested more than 125 deep makes a document that no reader takes. `OutOfMemory` alone refuses it.
    pub fn from_bundle(
        alloc: Global,
        bundle: &JwtBundle,
        sequence: Option<u64>,
        refresh_hint: Option<u64>,
    ) -> Result<Self, DocumentError>
        ensures ok { IfOk result (λ d. d ≡ document_of_bundle sequence refresh_hint bundle.now) }
        ensures err { IfErr result (λ e. e ≡ DocumentError.OutOfMemory) }
    {
        let keys = keys_of(alloc, bundle)?;
        let document = BundleDocument::with_keys(alloc, sequence, refresh_hint, 0, 0, keys)?;
        Ok(document)
    }
}

fn keys_of(alloc: Global, bundle: &JwtBundle) -> Result<Vec<Value>, AllocError>
    ensures keys { IfOk result (λ v. map view v.items ≡ map key_of (values_of bundle.now.authorities)) }
    ensures whole { IfOk result (λ v. items_have_float (items_view v.items) ≡ false) }
    ensures jwt { IfOk result (λ v. list_all is_jwt_key (map view v.items) ≡ true) }
    ensures named { IfOk result (λ v. list_all is_named (map view v.items) ≡ true) }
{
    let mut keys = Vec::new(alloc);
    for authority in bundle.jwt_authorities() {
        let key = key_of(alloc, authority)?;
        keys.push(key)?;
    }
    Ok(keys)
}

fn key_of(alloc: Global, authority: &JwtAuthority) -> Result<Value, AllocError>
    ensures value { IfOk result (λ v. view v ≡ key_of authority.now) }
    ensures whole { IfOk result (λ v. has_float (view v) ≡ false) }
    ensures jwt { IfOk result (λ v. is_jwt_key (view v) ≡ true) }
    ensures named { IfOk result (λ v. is_named (view v) ≡ true) }
{
    match read_json(alloc, authority.jwk_json()) {
        Ok(value) => {
            let key = for_tokens(alloc, value)?;
            Ok(key)
        }
        Err(ReadError::OutOfMemory) => Err(AllocError),
        Err(ReadError::Json(_)) => unreachable!(),
    }
}

// A key with its use.
fn for_tokens(alloc: Global, key: Value) -> Result<Value, AllocError>
    ensures { IfOk result (λ v. view v ≡ for_tokens (view key)) }
{
    match key {
        Value::Object(mut members) => {
            let name = String::from_str(alloc, "jwt-svid")?;
            put(&mut members, alloc, "use", Value::String(name))?;
            Ok(Value::Object(members))
        }
        other => Ok(other),
    }
}

//! Reading bundle documents.
ghost use Rattle.std.specs.Prelude.{◌≡◌, Ok, IfOk, IfErr, map, filter, count_by};
ghost use Rattle.std.specs.List.{position_from};
ghost use Rattle.serde_json.specs.Find.{get};
ghost use Rattle.serde_json.specs.View.{view, items_view};
ghost use Rattle.spiffe_id.specs.Rules.{map_ok};
ghost use Rattle.bundle_document.specs.Keys.{use_of, is_for_x509, is_for_neither, is_jwt_key, is_unnamed};
ghost use Rattle.bundle_document.specs.DocumentError.{IsRefusal};
ghost use Rattle.bundle_document.specs.Document.{IsReadable};
ghost use Rattle.bundle_document.specs.Reading.{items_in, keys_in, number_in, naming_of, document_of};

use crate::document::BundleDocument;
use crate::error::DocumentError;
use crate::key_use::{KeyUse, is_unnamed};
use serde_json::Value;
use spiffe_json::{JsonError, read_json};
use std::alloc::{AllocError, Global};

impl BundleDocument {
    /// Reads a document. Keys of other uses are counted and left out, and no key is judged beyond its use and its
    /// key ID. `Deserialize`, `Sequence`, `RefreshHint` or `MissingKeyId` for the first rule that it breaks, `OutOfMemory`.
    #[tactic(auto, unfolding(crate::specs::Reading::document_of))]
    pub fn read(alloc: Global, json: &[u8]) -> Result<Self, DocumentError>
        ensures ok { IfOk result (λ d. document_of json.now ≡ Ok d) }
        ensures readable { IfOk result (λ d. IsReadable d) }
        ensures err { IfErr result (IsRefusal (document_of json.now)) }
    {
        let value = read_json(alloc, json)?;
        let keys = keys_in(&value)?;
        let sequence = number_in(&value, "spiffe_sequence", DocumentError::Sequence)?;
        let refresh_hint = number_in(&value, "spiffe_refresh_hint", DocumentError::RefreshHint)?;
        check_naming(keys)?;
        let x509_count = count_for_x509(keys);
        let ignored_count = count_for_neither(keys);
        let selected = keys_for_tokens(alloc, keys)?;
        let document = BundleDocument::with_keys(
            alloc,
            sequence,
            refresh_hint,
            x509_count,
            ignored_count,
            selected,
        )?;
        Ok(document)
    }
}

fn keys_in(value: &Value) -> Result<&Vec<Value>, DocumentError>
    ensures { map_ok (λ v. map view v.now.items) result ≡ keys_in (view value.now) }
{
    array_in(value)
}

fn array_in(value: &Value) -> Result<&Vec<Value>, DocumentError>
    ensures { map_ok (λ v. items_view v.now.items) result ≡ items_in (view value.now) }
{
    match value.get("keys").and_then(Value::as_array) {
        Some(keys) => Ok(keys),
        None => Err(DocumentError::Deserialize(JsonError::Keys)),
    }
}

fn number_in(value: &Value, name: &str, broken: DocumentError) -> Result<Option<u64>, DocumentError>
    ensures { result ≡ number_in broken (get name.now (view value.now)) }
{
    match value.get(name) {
        None => Ok(None),
        Some(member) => match member.as_u64() {
            Some(number) => Ok(Some(number)),
            None => Err(broken),
        },
    }
}

fn find_unnamed(keys: &[Value]) -> Option<usize>
    ensures { result ≡ position_from is_unnamed 0 (map view keys.now) }
{
    for (place, key) in keys.iter().enumerate() {
        if is_unnamed(key) {
            return Some(place);
        }
    }
    None
}

fn check_naming(keys: &[Value]) -> Result<(), DocumentError>
    ensures { result ≡ naming_of (map view keys.now) }
{
    match find_unnamed(keys) {
        None => Ok(()),
        Some(key) => Err(DocumentError::MissingKeyId { key }),
    }
}

fn count_for_x509(keys: &[Value]) -> usize
    ensures { result ≡ count_by (λ d. is_for_x509 (use_of d)) (map view keys.now) }
{
    keys.iter()
        .filter(|key| KeyUse::of(key).is_for_x509())
        .count()
}

fn count_for_neither(keys: &[Value]) -> usize
    ensures { result ≡ count_by (λ d. is_for_neither (use_of d)) (map view keys.now) }
{
    keys.iter()
        .filter(|key| KeyUse::of(key).is_for_neither())
        .count()
}

fn keys_for_tokens(alloc: Global, keys: &[Value]) -> Result<Vec<Value>, AllocError>
    ensures { IfOk result (λ v. map view v.items ≡ filter is_jwt_key (map view keys.now)) }
{
    let mut found = Vec::new(alloc);
    for key in keys {
        if KeyUse::of(key).is_for_tokens() {
            found.push(key.clone()?)?;
        }
    }
    Ok(found)
}

//! What a manifest names.
ghost use Rattle.std.specs.Prelude.{◌≡◌, Ok, Some, map, option_map, IfErr, IfOk};
ghost use Rattle.serde_json.specs.Find.{get};
ghost use Rattle.serde_json.specs.View.{items_view, view};
ghost use Rattle.spiffe_token.specs.Members.{member_of, members_of};
ghost use Rattle.pack_manifest.specs.Manifest.{IsRefusal, array_at, are_both, bundle_in, bundles_in, entries_in, entry_in, entry_members};
ghost use Rattle.pack_manifest.specs.Manifest.{has_both, has_members, json_check, manifest_error, manifest_in, manifest_value, optional_text, shape_check};
ghost use Rattle.pack_manifest.specs.Manifest.{text_at};
ghost use Rattle.pack_manifest.specs.Views.{manifest_named, named_bundle, named_entry};

use crate::error::{ManifestError, ReadError};
use serde_json::Value;
use spiffe_json::{JsonError, ReadError as JsonReadError, read_json};
use spiffe_token::{Member, top_members};
use std::alloc::{AllocError, Global};

/// An entry of an update: its SPIFFE ID, and the files of its keys.
#[derive(Drop)]
pub struct NamedEntry<'v> {
    /// The text of its SPIFFE ID.
    pub id: &'v str,

    /// The path of its private key.
    pub key: &'v str,

    /// The path of its public key, where that has a file.
    pub public_key: Option<&'v str>,
}

/// A bundle of an update: its trust domain, and the file of its key set.
#[derive(Drop)]
pub struct NamedBundle<'v> {
    /// The text of its trust domain.
    pub domain: &'v str,

    /// The path of its key set.
    pub jwks: &'v str,
}

/// What an update is packed of.
#[derive(Drop)]
pub struct Manifest<'v> {
    /// The entries, in their order.
    pub entries: Vec<NamedEntry<'v>>,

    /// The bundles, in their order.
    pub bundles: Vec<NamedBundle<'v>>,
}

fn has_members(value: &Value, count: usize) -> bool
    ensures { result ≡ has_members count (view value.now) }
{
    match value.as_object() {
        Some(members) => members.len() == count,
        None => false,
    }
}

fn text_at<'v>(value: &'v Value, name: &str) -> Option<&'v str>
    ensures { option_map (λ t. t.now) result ≡ text_at name.now (view value.now) }
{
    value.get(name).and_then(Value::as_str)
}

// A member that is absent, or a text.
fn optional_text<'v>(value: &'v Value, name: &str) -> Option<Option<&'v str>>
    ensures { option_map (λ o. option_map (λ t. t.now) o) result ≡ optional_text (get name.now (view value.now)) }
{
    match value.get(name) {
        None => Some(None),
        Some(member) => match member.as_str() {
            Some(text) => Some(Some(text)),
            None => None,
        },
    }
}

fn array_at<'v>(value: &'v Value, name: &str) -> Option<&'v Vec<Value>>
    ensures { option_map (λ v. items_view v.now.items) result ≡ array_at name.now (view value.now) }
{
    value.get(name).and_then(Value::as_array)
}

fn entry_members(public_key: &Option<&str>) -> usize
    ensures { result ≡ entry_members (option_map (λ path. path.now) public_key.now) }
{
    match public_key {
        None => 2,
        Some(_) => 3,
    }
}

impl<'v> NamedEntry<'v> {
    fn of(value: &'v Value) -> Option<NamedEntry<'v>>
        ensures { option_map named_entry result ≡ entry_in (view value.now) }
    {
        let id = text_at(value, "id")?;
        let key = text_at(value, "key")?;
        let public_key = optional_text(value, "public")?;
        if !has_members(value, entry_members(&public_key)) {
            return None;
        }
        Some(NamedEntry {
            id,
            key,
            public_key,
        })
    }
}

impl<'v> NamedBundle<'v> {
    fn of(value: &'v Value) -> Option<NamedBundle<'v>>
        ensures { option_map named_bundle result ≡ bundle_in (view value.now) }
    {
        let domain = text_at(value, "domain")?;
        let jwks = text_at(value, "jwks")?;
        if !has_members(value, 2) {
            return None;
        }
        Some(NamedBundle { domain, jwks })
    }
}

fn entries_in<'v>(
    alloc: Global,
    items: &'v [Value],
) -> Result<Option<Vec<NamedEntry<'v>>>, AllocError>
    ensures { IfOk result (λ o. option_map (λ v. map named_entry v.items) o ≡ entries_in (items_view items.now)) }
{
    let mut entries = Vec::new(alloc);
    for item in items {
        let Some(entry) = NamedEntry::of(item) else {
            return Ok(None);
        };
        entries.push(entry)?;
    }
    Ok(Some(entries))
}

fn bundles_in<'v>(
    alloc: Global,
    items: &'v [Value],
) -> Result<Option<Vec<NamedBundle<'v>>>, AllocError>
    ensures { IfOk result (λ o. option_map (λ v. map named_bundle v.items) o ≡ bundles_in (items_view items.now)) }
{
    let mut bundles = Vec::new(alloc);
    for item in items {
        let Some(bundle) = NamedBundle::of(item) else {
            return Ok(None);
        };
        bundles.push(bundle)?;
    }
    Ok(Some(bundles))
}

fn are_both(one: &str, other: &str) -> bool
    ensures { result ≡ are_both one.now other.now }
{
    (one == "entries" && other == "bundles") || (one == "bundles" && other == "entries")
}

fn has_both(members: &[Member]) -> bool
    ensures { result ≡ has_both (Some (map member_of members.now)) }
{
    match members {
        [one, other] => are_both(one.name.as_str(), other.name.as_str()),
        _ => false,
    }
}

// Whether the text is an object of these two members, each of them once.
fn has_both_once(alloc: Global, json: &[u8]) -> Result<bool, AllocError>
    ensures { IfOk result (λ both. both ≡ has_both (members_of json.now)) }
{
    match top_members(alloc, json) {
        Ok(Some(members)) => Ok(has_both(&members)),
        Ok(None) => Ok(false),
        Err(_) => Err(AllocError),
    }
}

fn manifest_value<'v>(alloc: Global, value: &'v Value) -> Result<Option<Manifest<'v>>, AllocError>
    ensures { IfOk result (λ o. option_map manifest_named o ≡ manifest_value (view value.now)) }
{
    let Some(entries) = array_at(value, "entries") else {
        return Ok(None);
    };
    let Some(entries) = entries_in(alloc, entries)? else {
        return Ok(None);
    };
    let Some(bundles) = array_at(value, "bundles") else {
        return Ok(None);
    };
    let Some(bundles) = bundles_in(alloc, bundles)? else {
        return Ok(None);
    };
    Ok(Some(Manifest { entries, bundles }))
}

fn manifest_in<'v>(
    alloc: Global,
    json: &[u8],
    value: &'v Value,
) -> Result<Option<Manifest<'v>>, AllocError>
    ensures { IfOk result (λ o. option_map manifest_named o ≡ manifest_in (members_of json.now) (view value.now)) }
{
    if !has_both_once(alloc, json)? {
        return Ok(None);
    }
    manifest_value(alloc, value)
}

fn manifest_error(error: JsonError) -> ManifestError
    ensures { result ≡ manifest_error error }
{
    match error {
        JsonError::Syntax => ManifestError::Syntax,
        JsonError::Number => ManifestError::Number,
        JsonError::Keys => ManifestError::Shape,
        JsonError::Shape => ManifestError::Shape,
    }
}

/// The JSON value of a manifest's text. It errs with `Syntax` or `Number` where the text breaks that rule, and for want of
/// memory.
pub fn read_value(alloc: Global, text: &[u8]) -> Result<Value, ReadError>
    ensures ok { IfOk result (λ v. json_check text.now ≡ Ok (view v)) }
    ensures err { IfErr result (IsRefusal (json_check text.now)) }
{
    match read_json(alloc, text) {
        Ok(value) => Ok(value),
        Err(JsonReadError::Json(error)) => Err(ReadError::Manifest(manifest_error(error))),
        Err(JsonReadError::OutOfMemory) => Err(ReadError::OutOfMemory),
    }
}

impl<'v> Manifest<'v> {
    /// The manifest that the value is, which `read_value` gave of this text. Values don't show a name that stands twice in
    /// the outermost object; the text does. It errs with `Shape` where the value is no manifest, and for want of memory.
    pub fn of(alloc: Global, text: &[u8], value: &'v Value) -> Result<Manifest<'v>, ReadError>
        ensures ok { IfOk result (λ m. shape_check text.now (view value.now) ≡ Ok (manifest_named m)) }
        ensures err { IfErr result (IsRefusal (shape_check text.now (view value.now))) }
    {
        match manifest_in(alloc, text, value) {
            Ok(Some(manifest)) => Ok(manifest),
            Ok(None) => Err(ReadError::Manifest(ManifestError::Shape)),
            Err(_) => Err(ReadError::OutOfMemory),
        }
    }
}

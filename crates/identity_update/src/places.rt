//! Writing entries, and finding where their parts stand in what was written.
ghost use Rattle.std.specs.Prelude.{◌≡◌, ◌+◌, ◌++◌, ◌<◌, ◌≤◌, ◌^◌, length, option_map, IfOk, IfErr, IfSome, OnOk};
ghost use Rattle.der_small.specs.BitString.{plain_bits_ref};
ghost use Rattle.pkcs8.specs.Attributes.{attributes_bytes_ref};
ghost use Rattle.update_document.specs.Spelling.{entry_der};
ghost use Rattle.identity_update.specs.Canonical.{canonical_entry};
ghost use Rattle.identity_update.specs.Checked.{checked_entry};
ghost use Rattle.identity_update.specs.Kept.{IsKept, IsPlaced, kept_any, kept_entry};
ghost use Rattle.identity_update.specs.Lawful.{HasOneKey};
ghost use Rattle.identity_update.specs.Place.{FoundAt, IsWithin, part};
ghost use Rattle.identity_update.specs.Places.{StandsAt, attributes_field, behind_attributes, held_field};

use crate::entry::CheckedEntry;
use crate::error::UpdateError;
use crate::kept::{KeptAny, KeptEntry};
use crate::place::Place;
use der_core::{Encode, VecWriter, tagged_len};
use der_small::BitStringRef;
use pkcs8::AttributesRef;

pub(crate) fn len_of<T: Encode>(value: &T) -> u32
    requires { length (T.encoding value.now) < 2 ^ 32 }
    ensures { result ≡ length (T.encoding value.now) }
{
    let Ok(len) = value.encoded_len() else {
        unreachable!()
    };
    len.get()
}

// The place of so many bytes that end `back` bytes before `end`.
pub(crate) fn before(end: u32, back: u32, len: usize) -> Place
    requires { back + len ≤ end }
    ensures end { result.end + back ≡ end }
    ensures start { result.start + len ≡ result.end }
{
    let end = end - back;
    Place {
        start: end - len as u32,
        end,
    }
}

fn bits_place(document: &[u8], entry: &CheckedEntry<'_>, end: u32) -> Place
    requires stands { StandsAt document.now (entry_der (canonical_entry (checked_entry entry.now))) end }
    ensures { FoundAt document.now result (checked_entry entry.now).public_key.key.octets }
{
    let _ = document;
    before(
        end,
        0,
        entry.public_key.subject_public_key.raw_bytes().len(),
    )
}

fn parameters_place(document: &[u8], entry: &CheckedEntry<'_>, end: u32) -> Option<KeptAny>
    requires stands { StandsAt document.now (entry_der (canonical_entry (checked_entry entry.now))) end }
    requires small { length document.now < 2 ^ 32 }
    ensures value { option_map (kept_any document.now) result ≡ (checked_entry entry.now).public_key.algorithm.parameters }
    ensures within { IfSome result (λ kept. IsWithin document.now kept.content) }
{
    let _ = document;
    let back = len_of(&entry.public_key.subject_public_key);
    match &entry.public_key.algorithm.parameters {
        None => None,
        Some(parameters) => Some(KeptAny {
            tag: parameters.tag(),
            content: before(end, back, parameters.value().len()),
        }),
    }
}

// The length of the attributes' field in a private key document.
fn attributes_len(attributes: &Option<AttributesRef<'_>>) -> u32
    requires { length (attributes_field (option_map attributes_bytes_ref attributes.now)) < 2 ^ 32 }
    ensures { result ≡ length (attributes_field (option_map attributes_bytes_ref attributes.now)) }
{
    match attributes {
        None => 0,
        Some(attributes) => len_of(attributes),
    }
}

// The length of the public key's field in a private key document.
fn held_len(key: &Option<BitStringRef<'_>>) -> u32
    requires { length (held_field (option_map plain_bits_ref key.now)) < 2 ^ 32 }
    ensures { result ≡ length (held_field (option_map plain_bits_ref key.now)) }
{
    match key {
        None => 0,
        Some(key) => {
            let Ok(len) = tagged_len(key) else {
                unreachable!()
            };
            len.get()
        }
    }
}

// The length of what stands behind the attributes of the private key.
fn behind_attributes_len(document: &[u8], entry: &CheckedEntry<'_>, end: u32) -> u32
    requires stands { StandsAt document.now (entry_der (canonical_entry (checked_entry entry.now))) end }
    requires small { length document.now < 2 ^ 32 }
    ensures { result ≡ length (behind_attributes (checked_entry entry.now)) }
{
    let _ = document;
    let _ = end;
    held_len(&entry.private_key.public_key) + len_of(&entry.public_key)
}

fn attributes_place(document: &[u8], entry: &CheckedEntry<'_>, end: u32) -> Option<Place>
    requires stands { StandsAt document.now (entry_der (canonical_entry (checked_entry entry.now))) end }
    requires small { length document.now < 2 ^ 32 }
    ensures value { option_map (part document.now) result ≡ (checked_entry entry.now).private_key.attributes }
    ensures within { IfSome result (IsWithin document.now) }
{
    let back = behind_attributes_len(document, entry, end);
    match &entry.private_key.attributes {
        None => None,
        Some(attributes) => Some(before(end, back, attributes.as_bytes().len())),
    }
}

fn octets_place(document: &[u8], entry: &CheckedEntry<'_>, end: u32) -> Place
    requires stands { StandsAt document.now (entry_der (canonical_entry (checked_entry entry.now))) end }
    requires small { length document.now < 2 ^ 32 }
    ensures { FoundAt document.now result (checked_entry entry.now).private_key.private_key }
{
    let attributes = attributes_len(&entry.private_key.attributes);
    let back = behind_attributes_len(document, entry, end);
    before(
        end,
        attributes + back,
        entry.private_key.private_key.as_bytes().len(),
    )
}

// The places of an entry whose encoding ends at this place in the document.
fn place(document: &[u8], entry: CheckedEntry<'_>, end: u32) -> KeptEntry
    requires stands { StandsAt document.now (entry_der (canonical_entry (checked_entry entry))) end }
    requires one { HasOneKey (checked_entry entry) }
    requires small { length document.now < 2 ^ 32 }
    ensures value { kept_entry document.now result ≡ checked_entry entry.entry }
    ensures placed { IsPlaced document.now result }
{
    let parameters = parameters_place(document, &entry, end);
    let octets = octets_place(document, &entry, end);
    let attributes = attributes_place(document, &entry, end);
    let bits = bits_place(document, &entry, end);
    KeptEntry {
        id: entry.id,
        oid: entry.public_key.algorithm.oid,
        parameters,
        octets,
        attributes,
        holds_public_key: entry.private_key.public_key.is_some(),
        unused_bits: entry.public_key.subject_public_key.unused_bits(),
        bits,
    }
}

// What is kept of an entry whose encoding ends at this place in the document.
fn keep(document: &[u8], entry: CheckedEntry<'_>, end: u32) -> KeptEntry
    requires stands { StandsAt document.now (entry_der (canonical_entry (checked_entry entry))) end }
    requires one { HasOneKey (checked_entry entry) }
    requires small { length document.now < 2 ^ 32 }
    ensures value { kept_entry document.now result ≡ checked_entry entry.entry }
    ensures kept { IsKept document.now result }
{
    place(document, entry, end)
}

/// Writes an entry behind those before it, and answers what is kept of it beside its encoding.
pub(crate) fn append(
    writer: &mut VecWriter,
    entry: CheckedEntry<'_>,
) -> Result<KeptEntry, UpdateError>
    requires one { HasOneKey (checked_entry entry) }
    requires fits { length writer.old.bytes.items + length (entry_der (canonical_entry (checked_entry entry))) < 2 ^ 32 }
    ensures written { OnOk result (writer.new.bytes.items ≡ writer.old.bytes.items ++ entry_der (canonical_entry (checked_entry entry.entry))) }
    ensures value { IfOk result (λ kept. kept_entry writer.new.bytes.items kept ≡ checked_entry entry.entry) }
    ensures kept { IfOk result (IsKept writer.new.bytes.items) }
    ensures memory { IfErr result (λ e. e ≡ UpdateError.OutOfMemory) }
{
    let Ok(()) = entry.encode(writer) else {
        return Err(UpdateError::OutOfMemory);
    };
    let end = writer.bytes.len() as u32;
    Ok(keep(&writer.bytes, entry, end))
}

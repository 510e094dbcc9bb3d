//! Entries of updates, with places in a buffer of the caller's.
ghost use Rattle.std.specs.Prelude.{◌≡◌, ◌≢◌, ◌⊎◌, ◌<◌, ◌^◌, ◌++◌, length, IfOk, OnOk};
ghost use Rattle.std.specs.List.{flat_map};
ghost use Rattle.kamzirda_c.specs.Buffers.{WantingBoth, WrittenBoth};
ghost use Rattle.kamzirda_c.specs.Status.{done, no_memory, no_room, refused};
ghost use Rattle.kamzirda_c.specs.Updates.{BreaksUpdateRule, TellsEntries, entries_at, entry_at, entry_bytes, part_at};
ghost use Rattle.sha2.specs.Sha256.{sha256};
ghost use Rattle.spki.specs.PlainPublicKey.{plain_public_key_ref, public_key_der};

use crate::buffers::{KamzirdaRoom, fill_both};
use crate::status::NO_MEMORY;
use crate::updates::read_update;
use identity_update::{Entries, Identity};
use spki::SubjectPublicKeyInfoRef;
use std::alloc::{AllocError, Global};

/// Bytes of a caller's buffer.
#[repr(C)]
#[derive(Clone, Copy)]
pub struct KamzirdaPart {
    /// Where they begin.
    pub offset: usize,

    /// How many there are.
    pub len: usize,
}

/// An entry of an update.
#[repr(C)]
#[derive(Clone, Copy)]
pub struct KamzirdaEntry {
    /// The text of its SPIFFE ID.
    pub id: KamzirdaPart,

    /// The document of its private key (PKCS #8, DER).
    pub private_key: KamzirdaPart,

    /// The document of its public key (SubjectPublicKeyInfo, DER).
    pub public_key: KamzirdaPart,

    /// The SHA-256 digest of that.
    pub fingerprint: [u8; 32],
}

// Appends bytes, and answers where they stand.
fn append(out: &mut Vec<u8>, bytes: &[u8]) -> Result<KamzirdaPart, AllocError>
    ensures appended { OnOk result (out.new.items ≡ out.old.items ++ bytes.now) }
    ensures part { IfOk result (λ part. part ≡ part_at (length out.old.items) bytes.now) }
{
    let offset = out.len();
    out.extend_from_slice(bytes)?;
    Ok(KamzirdaPart {
        offset,
        len: bytes.len(),
    })
}

// The fingerprint of a public key whose document fits.
fn fingerprint(key: &SubjectPublicKeyInfoRef<'_>) -> [u8; 32]
    requires { length (public_key_der (plain_public_key_ref key.now)) < 2 ^ 32 }
    ensures { result ≡ sha256 (public_key_der (plain_public_key_ref key.now)) }
{
    match key.fingerprint_bytes() {
        Ok(digest) => digest,
        Err(_) => unreachable!(),
    }
}

fn append_entry(
    alloc: Global,
    out: &mut Vec<u8>,
    identity: &Identity<'_>,
) -> Result<KamzirdaEntry, AllocError>
    ensures appended { OnOk result (out.new.items ≡ out.old.items ++ entry_bytes identity.now) }
    ensures entry { IfOk result (λ entry. entry ≡ entry_at (length out.old.items) identity.now) }
{
    let id = format!(in alloc; "{}", identity.id())?;
    // The keys of an update are never too long, so each refusal here is want of memory.
    let Ok(private_key) = identity.private_key().to_secret_document(alloc) else {
        return Err(AllocError);
    };
    let key = identity.public_key();
    let Ok(public_key) = key.to_document(alloc) else {
        return Err(AllocError);
    };
    Ok(KamzirdaEntry {
        id: append(out, id.as_bytes())?,
        private_key: append(out, private_key.as_bytes())?,
        public_key: append(out, public_key.as_bytes())?,
        fingerprint: fingerprint(&key),
    })
}

fn append_entries(
    alloc: Global,
    out: &mut Vec<u8>,
    entries: Entries<'_>,
) -> Result<Vec<KamzirdaEntry>, AllocError>
    ensures appended { OnOk result (out.new.items ≡ out.old.items ++ flat_map entry_bytes entries.entry) }
    ensures told { IfOk result (λ told. told.items ≡ entries_at (length out.old.items) entries.entry) }
{
    let mut told = Vec::new(alloc);
    for identity in entries {
        told.push(append_entry(alloc, out, &identity)?)?;
    }
    Ok(told)
}

/// Tells the entries of an update's text, and lays their bytes one behind the other into a buffer.
#[unsafe(no_mangle)]
pub extern "C" fn kamzirda_update_entries(
    alloc: Global,
    text: &[u8],
    width: usize,
    entries: &mut [KamzirdaEntry],
    buffer: &mut [u8],
    room: &mut KamzirdaRoom,
    rule: &mut u32,
) -> u32
    ensures known { (result ≡ done) ⊎ (result ≡ refused) ⊎ (result ≡ no_memory) ⊎ (result ≡ no_room) }
    ensures done { result ≡ done → TellsEntries width text.now (WrittenBoth entries.old entries.new buffer.old buffer.new room.new) }
    ensures no_room { result ≡ no_room → TellsEntries width text.now (WantingBoth entries.old buffer.old room.new) }
    ensures refused { result ≡ refused → BreaksUpdateRule width text.now rule.new }
    ensures same { result ≢ done → (entries.new ≡ entries.old) × (buffer.new ≡ buffer.old) }
    ensures kept { result ≢ done → result ≢ no_room → room.new ≡ room.old }
    ensures no_rule { result ≢ refused → rule.new ≡ rule.old }
{
    let update = match read_update(alloc, text, width, rule) {
        Ok(update) => update,
        Err(status) => return status,
    };
    let mut bytes = Vec::new(alloc);
    match append_entries(alloc, &mut bytes, update.entries()) {
        Ok(told) => fill_both(&told, &bytes, entries, buffer, room),
        Err(_) => NO_MEMORY,
    }
}

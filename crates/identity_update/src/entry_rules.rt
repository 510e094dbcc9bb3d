//! The rules of entries.
ghost use Rattle.std.specs.Prelude.{◌≡◌, ◌⊎◌, ◌<◌, ◌^◌, Ok, length, map, option_map, vec_len, IfOk, IfErr, OnOk};
ghost use Rattle.std.specs.List.{flat_map};
ghost use Rattle.der_core.specs.Any.{plain_ref};
ghost use Rattle.der_small.specs.BitString.{plain_bits_ref};
ghost use Rattle.der_small.specs.Utf8.{text_ref};
ghost use Rattle.spiffe_id.specs.SpiffeId.{id_of};
ghost use Rattle.spki.specs.PlainAlgorithm.{plain_algorithm};
ghost use Rattle.spki.specs.PlainPublicKey.{plain_public_key_ref};
ghost use Rattle.pkcs8.specs.PlainPrivateKey.{plain_private_key_ref};
ghost use Rattle.update_document.specs.Refs.{written_entry};
ghost use Rattle.update_document.specs.Spelling.{entry_der};
ghost use Rattle.identity_update.specs.Checked.{checked_entry};
ghost use Rattle.identity_update.specs.KeptEntries.{AreKeptEntries, entries_der, entries_of};
ghost use Rattle.identity_update.specs.PartsVerdict.{pairs_check};
ghost use Rattle.spki.specs.Same.{same_algorithm as same_algorithm_of, same_bits as same_bits_of};
ghost use Rattle.identity_update.specs.Verdict.{IsRefusal, map_refusal, purpose_check, holds_no_other as holds_no_other_of, keys_check, entry_check};
ghost use Rattle.identity_update.specs.Verdict.{entries_check};
ghost use Rattle.identity_update.specs.declared.error.UpdateError.TheVariants.{Subject};

use crate::entry::CheckedEntry;
use crate::error::UpdateError;
use crate::kept::KeptEntries;
use crate::places::append;
use der_core::VecWriter;
use der_small::{BitStringRef, Utf8Ref};
use pkcs8::PrivateKeyInfoRef;
use spiffe_id::{SpiffeId, SpiffeIdError};
use spki::{AlgorithmIdentifierRef, SubjectPublicKeyInfoRef};
use std::alloc::Global;
use update_document::EntryRef;

/// An update has either entries or a reason.
pub(crate) fn check_purpose<E>(
    entries: &[E],
    reason: &Option<Utf8Ref<'_>>,
) -> Result<(), UpdateError>
    ensures { result ≡ purpose_check entries.now (option_map text_ref reason.now) }
{
    match (entries.is_empty(), reason.is_some()) {
        (true, false) => Err(UpdateError::MissingRequiredField),
        (false, true) => Err(UpdateError::WithdrawalWithEntries),
        _ => Ok(()),
    }
}

fn same_algorithm(a: &AlgorithmIdentifierRef<'_>, b: &AlgorithmIdentifierRef<'_>) -> bool
    ensures { result ≡ same_algorithm_of (plain_algorithm plain_ref a.now) (plain_algorithm plain_ref b.now) }
{
    a == b
}

fn same_bits(a: &BitStringRef<'_>, b: &BitStringRef<'_>) -> bool
    ensures { result ≡ same_bits_of (plain_bits_ref a.now) (plain_bits_ref b.now) }
{
    a == b
}

fn holds_no_other(held: &Option<BitStringRef<'_>>, key: &BitStringRef<'_>) -> bool
    ensures { result ≡ holds_no_other_of (option_map plain_bits_ref held.now) (plain_bits_ref key.now) }
{
    match held {
        None => true,
        Some(held) => same_bits(held, key),
    }
}

fn check_keys(
    number: usize,
    private_key: &PrivateKeyInfoRef<'_>,
    public_key: &SubjectPublicKeyInfoRef<'_>,
) -> Result<(), UpdateError>
    ensures { result ≡ keys_check number (plain_private_key_ref private_key.now) (plain_public_key_ref public_key.now) }
{
    if !same_algorithm(&private_key.algorithm, &public_key.algorithm) {
        return Err(UpdateError::AlgorithmMismatch { entry: number });
    }
    if !holds_no_other(&private_key.public_key, &public_key.subject_public_key) {
        return Err(UpdateError::PublicKeyMismatch { entry: number });
    }
    Ok(())
}

fn subject(alloc: Global, number: usize, text: &str) -> Result<SpiffeId, UpdateError>
    ensures ok { IfOk result (λ id. map_refusal (Subject number) (id_of text.now) ≡ Ok id) }
    ensures err { IfErr result (IsRefusal (map_refusal (Subject number) (id_of text.now))) }
{
    match SpiffeId::new(alloc, text) {
        Ok(id) => Ok(id),
        Err(SpiffeIdError::OutOfMemory) => Err(UpdateError::OutOfMemory),
        Err(cause) => Err(UpdateError::Subject {
            entry: number,
            cause,
        }),
    }
}

fn check_entry<'a>(
    alloc: Global,
    number: usize,
    entry: EntryRef<'a>,
) -> Result<CheckedEntry<'a>, UpdateError>
    ensures ok { IfOk result (λ checked. entry_check number (written_entry entry.entry) ≡ Ok (checked_entry checked)) }
    ensures err { IfErr result (IsRefusal (entry_check number (written_entry entry.entry))) }
{
    let id = subject(alloc, number, entry.text.as_str())?;
    check_keys(number, &entry.private_key, &entry.public_key)?;
    Ok(CheckedEntry {
        id,
        private_key: entry.private_key,
        public_key: entry.public_key,
    })
}

// Gives back room of entries that were taken from the end, whenever a quarter of it is free: so each entry is
// moved a few times at most, also where memory is given back by a copy.
fn give_back(left: &mut Vec<EntryRef<'_>>)
    ensures items { left.new.items ≡ left.old.items }
    ensures len { vec_len left.new ≡ vec_len left.old }
{
    if left.len() <= left.capacity() / 4 * 3 {
        left.shrink_to_fit();
    }
}

/// Tries the rules of each entry in turn, and writes it into a vector of so much room. The room of entries that were
/// read is given back on the way: they are larger than what is kept of them.
pub(crate) fn check_entries(
    alloc: Global,
    entries: Vec<EntryRef<'_>>,
    room: usize,
) -> Result<KeptEntries, UpdateError>
    requires fits { length (flat_map entry_der (map written_entry entries.items)) < 2 ^ 32 }
    ensures ok { IfOk result (λ kept. entries_check 0 (map written_entry entries.entry.items) ≡ Ok (entries_of kept)) }
    ensures kept { IfOk result AreKeptEntries }
    ensures err { IfErr result (IsRefusal (entries_check 0 (map written_entry entries.entry.items))) }
{
    let mut kept = Vec::with_capacity(alloc, entries.len())?;
    let mut writer = VecWriter::behind(Vec::with_capacity(alloc, room)?);
    let mut left = entries;
    left.reverse();
    while let Some(entry) = left.pop() {
        give_back(&mut left);
        let checked = check_entry(alloc, kept.len(), entry)?;
        let one = append(&mut writer, checked)?;
        kept.push(one)?;
    }
    Ok(KeptEntries {
        written: writer.bytes,
        entries: kept,
    })
}

/// Tries the rules of the keys of each entry in turn, and writes it.
pub(crate) fn check_pairs(
    alloc: Global,
    entries: Vec<CheckedEntry<'_>>,
) -> Result<KeptEntries, UpdateError>
    requires fits { length (entries_der (map checked_entry entries.items)) < 2 ^ 32 }
    ensures ok { OnOk result (pairs_check 0 (map checked_entry entries.entry.items) ≡ Ok tt) }
    ensures value { IfOk result (λ kept. entries_of kept ≡ map checked_entry entries.entry.items) }
    ensures kept { IfOk result AreKeptEntries }
    ensures err { IfErr result (IsRefusal (pairs_check 0 (map checked_entry entries.entry.items))) }
{
    let mut kept = Vec::with_capacity(alloc, entries.len())?;
    let mut writer = VecWriter::behind(Vec::new(alloc));
    for entry in entries {
        check_keys(kept.len(), &entry.private_key, &entry.public_key)?;
        let one = append(&mut writer, entry)?;
        kept.push(one)?;
    }
    Ok(KeptEntries {
        written: writer.bytes,
        entries: kept,
    })
}

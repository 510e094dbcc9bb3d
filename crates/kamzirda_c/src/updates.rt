//! Texts of updates.
ghost use Rattle.std.specs.Prelude.{◌≡◌, ◌≢◌, ◌⊎◌, IfOk, IfErr, OnOk};
ghost use Rattle.identity_update.specs.Parts.{UpdateParts};
ghost use Rattle.identity_update.specs.Reading.{Writes};
ghost use Rattle.kamzirda_c.specs.Buffers.{Wanting, Written};
ghost use Rattle.kamzirda_c.specs.Rules.{update_rule_number};
ghost use Rattle.kamzirda_c.specs.Status.{done, no_memory, no_room, refused};
ghost use Rattle.kamzirda_c.specs.Updates.{BreaksUpdateRule, HasCounts, TellsRefusal};

use crate::buffers::fill;
use crate::status::{DONE, NO_MEMORY, REFUSED};
use base64_text::Error as TextError;
use der_core::Error as DocumentError;
use identity_update::{Update, UpdateError};
use refusal_lines::refusal_text;
use std::alloc::Global;

/// How much an update lists.
#[repr(C)]
#[derive(Clone, Copy)]
pub struct KamzirdaCounts {
    /// Entries; none where it withdraws all identities.
    pub entries: usize,

    /// Bundles, with those that a later one replaces.
    pub bundles: usize,
}

fn rule_number(error: &UpdateError) -> u32
    ensures { result ≡ update_rule_number error.now }
{
    match error {
        UpdateError::RevisionsUsedUp => 0,
        UpdateError::Text(TextError::InvalidEncoding) => 1,
        UpdateError::Text(TextError::InvalidLength) => 2,
        UpdateError::Text(TextError::OutOfMemory) => 0,
        UpdateError::Document(DocumentError::TrailingData { .. }) => 4,
        UpdateError::Document(_) => 3,
        UpdateError::MissingRequiredField => 5,
        UpdateError::WithdrawalWithEntries => 6,
        UpdateError::Subject { .. } => 7,
        UpdateError::AlgorithmMismatch { .. } => 8,
        UpdateError::PublicKeyMismatch { .. } => 9,
        UpdateError::Domain { .. } => 10,
        UpdateError::Authorities { .. } => 11,
        UpdateError::MissingBundle { .. } => 12,
        UpdateError::OutOfMemory => 0,
    }
}

/// An update's text as its update, or the status of a refusal.
pub(crate) fn read_update(
    alloc: Global,
    text: &[u8],
    width: usize,
    rule: &mut u32,
) -> Result<Update, u32>
    ensures update { IfOk result (Writes width text.now) }
    ensures known { IfErr result (λ status. (status ≡ refused) ⊎ (status ≡ no_memory)) }
    ensures refused { IfErr result (λ status. status ≡ refused → BreaksUpdateRule width text.now rule.new) }
    ensures no_rule { IfErr result (λ status. status ≢ refused → rule.new ≡ rule.old) }
    ensures kept { OnOk result (rule.new ≡ rule.old) }
{
    match Update::read(alloc, text, width) {
        Ok(update) => Ok(update),
        Err(UpdateError::OutOfMemory) => Err(NO_MEMORY),
        Err(error) => {
            *rule = rule_number(&error);
            Err(REFUSED)
        }
    }
}

/// Judges an update's text in lines of a width, and counts what it lists.
#[unsafe(no_mangle)]
pub extern "C" fn kamzirda_update_check(
    alloc: Global,
    text: &[u8],
    width: usize,
    counts: &mut KamzirdaCounts,
    rule: &mut u32,
) -> u32
    ensures known { (result ≡ done) ⊎ (result ≡ refused) ⊎ (result ≡ no_memory) }
    ensures done { result ≡ done → HasCounts width text.now counts.new }
    ensures refused { result ≡ refused → BreaksUpdateRule width text.now rule.new }
    ensures kept { result ≢ done → counts.new ≡ counts.old }
    ensures no_rule { result ≢ refused → rule.new ≡ rule.old }
{
    match read_update(alloc, text, width, rule) {
        Ok(update) => {
            *counts = KamzirdaCounts {
                entries: update.entries().len(),
                bundles: update.bundles().len(),
            };
            DONE
        }
        Err(status) => status,
    }
}

/// The line of the first rule that an update's text breaks, as the programs print it, with its LF.
#[unsafe(no_mangle)]
pub extern "C" fn kamzirda_update_refusal(
    alloc: Global,
    text: &[u8],
    width: usize,
    line: &mut [u8],
    len: &mut usize,
) -> u32
    ensures known { (result ≡ done) ⊎ (result ≡ refused) ⊎ (result ≡ no_memory) ⊎ (result ≡ no_room) }
    ensures done { result ≡ done → (u : UpdateParts) × Writes width text.now u }
    ensures refused { result ≡ refused → TellsRefusal width text.now (Written line.old line.new len.new) }
    ensures no_room { result ≡ no_room → TellsRefusal width text.now (Wanting line.old line.new len.new) }
    ensures same { result ≢ refused → line.new ≡ line.old }
    ensures kept { result ≢ refused → result ≢ no_room → len.new ≡ len.old }
{
    let error = match Update::read(alloc, text, width) {
        Ok(_) => return DONE,
        Err(error) => error,
    };
    let Ok(told) = refusal_text(alloc, &error) else {
        return NO_MEMORY;
    };
    match fill(told.as_bytes(), line, len) {
        DONE => REFUSED,
        status => status,
    }
}

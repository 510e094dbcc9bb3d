//! Entries that an update is made of.
ghost use Rattle.std.specs.Prelude.{◌≡◌, map, IfOk, IfErr, OnOk};
ghost use Rattle.std.specs.List.{AllByRecursion};
ghost use Rattle.identity_update.specs.Checked.{checked_entry};
ghost use Rattle.identity_update.specs.EntryParts.{plain_entry};
ghost use Rattle.identity_update.specs.Lawful.{HasCanonicalId};

use crate::entry::CheckedEntry;
use crate::error::UpdateError;
use pkcs8::PrivateKeyInfoOwned;
use spiffe_id::SpiffeId;
use spki::SubjectPublicKeyInfoOwned;
use std::alloc::Global;

/// An identity and its key pair, as an update is made of them.
#[derive(Debug, Drop)]
pub struct EntryParts {
    /// The SPIFFE ID.
    pub id: SpiffeId,

    /// Its private key, with its attributes and its public key where it holds them.
    pub private_key: PrivateKeyInfoOwned,

    /// Its public key.
    pub public_key: SubjectPublicKeyInfoOwned,
}

fn borrow_entry<'a>(alloc: Global, entry: &'a EntryParts) -> Result<CheckedEntry<'a>, UpdateError>
    ensures ok { IfOk result (λ borrowed. checked_entry borrowed ≡ plain_entry entry.now) }
    ensures id { HasCanonicalId (plain_entry entry.now) }
    ensures err { IfErr result (λ e. e ≡ UpdateError.OutOfMemory) }
{
    let _ = entry.id.trust_domain_name();
    let _ = entry.id.path();
    Ok(CheckedEntry {
        id: entry.id.copy(alloc)?,
        private_key: entry.private_key.owned_to_ref(),
        public_key: entry.public_key.owned_to_ref(),
    })
}

/// The entries in borrowed bytes, before any rule is tried.
pub(crate) fn borrow_entries<'a>(
    alloc: Global,
    entries: &'a [EntryParts],
) -> Result<Vec<CheckedEntry<'a>>, UpdateError>
    ensures ok { IfOk result (λ borrowed. map checked_entry borrowed.items ≡ map plain_entry entries.now) }
    ensures ids { OnOk result (AllByRecursion HasCanonicalId (map plain_entry entries.now)) }
    ensures err { IfErr result (λ e. e ≡ UpdateError.OutOfMemory) }
{
    let mut borrowed = Vec::with_capacity(alloc, entries.len())?;
    for entry in entries {
        borrowed.push(borrow_entry(alloc, entry)?)?;
    }
    Ok(borrowed)
}

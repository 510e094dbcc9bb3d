//! The entries of an update, by what a manifest names.
ghost use Rattle.std.specs.Prelude.{◌≡◌, map, option_map};
ghost use Rattle.std.specs.Option.{ok_or};
ghost use Rattle.identity_update.specs.EntryParts.{plain_entry};
ghost use Rattle.identity_update.specs.Verdict.{map_refusal};
ghost use Rattle.pkcs8.specs.PlainPrivateKey.{plain_private_key};
ghost use Rattle.spiffe_id.specs.SpiffeId.{id_of};
ghost use Rattle.spki.specs.PlainPublicKey.{plain_public_key};
ghost use Rattle.pack_update.specs.Packed.{EntryRules, KeyRules, PublicKeyRule, own_public_key};
ghost use Rattle.pack_update.specs.Rules.{Each, Gives, Is};
ghost use Rattle.pack_update.specs.Tries.{Tries};
ghost use Rattle.pack_manifest.specs.Views.{named_entry};

use crate::error::PackError;
use crate::files::{read_private_key, read_public_key};
use identity_io::Disk;
use identity_update::EntryParts;
use pack_manifest::NamedEntry;
use pkcs8::PrivateKeyInfoOwned;
use spiffe_id::{SpiffeId, SpiffeIdError};
use spki::{SubjectPublicKeyInfoOwned, SubjectPublicKeyInfoRef};
use std::alloc::Global;

fn subject(alloc: Global, entry: usize, id: &str) -> Result<SpiffeId, PackError>
    ensures { Gives (λ id. id) (Is (map_refusal (PackError.Subject entry) (id_of id.now))) result }
{
    match SpiffeId::new(alloc, id) {
        Ok(id) => Ok(id),
        Err(SpiffeIdError::OutOfMemory) => Err(PackError::OutOfMemory),
        Err(cause) => Err(PackError::Subject { entry, cause }),
    }
}

// The public key in the document of the private key.
fn own_public_key(
    alloc: Global,
    entry: usize,
    key: &PrivateKeyInfoOwned,
) -> Result<SubjectPublicKeyInfoOwned, PackError>
    ensures { Gives plain_public_key (Is (ok_or (own_public_key (plain_private_key key.now)) (PackError.NoPublicKey entry))) result }
{
    let borrowed = key.owned_to_ref();
    let Some(held) = borrowed.public_key else {
        return Err(PackError::NoPublicKey { entry });
    };
    let own = SubjectPublicKeyInfoRef {
        algorithm: borrowed.algorithm,
        subject_public_key: held,
    };
    match own.ref_to_owned(alloc) {
        Ok(own) => Ok(own),
        Err(_) => Err(PackError::OutOfMemory),
    }
}

fn public_key<D: Disk>(
    alloc: Global,
    disk: &mut D,
    entry: usize,
    path: Option<&str>,
    key: &PrivateKeyInfoOwned,
) -> Result<SubjectPublicKeyInfoOwned, PackError>
    ensures { Tries plain_public_key (λ files. PublicKeyRule files entry (option_map (λ p. p.now) path.entry) (plain_private_key key.now))
        (D.files disk.old) (D.files disk.new) (D.faults disk.old) (D.faults disk.new) result }
{
    match path {
        Some(path) => read_public_key(alloc, disk, entry, path),
        None => own_public_key(alloc, entry, key),
    }
}

fn with_keys<D: Disk>(
    alloc: Global,
    disk: &mut D,
    entry: usize,
    named: &NamedEntry<'_>,
    id: SpiffeId,
) -> Result<EntryParts, PackError>
    ensures { Tries plain_entry (λ files. KeyRules files entry (named_entry named.now) id) (D.files disk.old) (D.files disk.new) (D.faults disk.old)
        (D.faults disk.new) result }
{
    let private_key = match read_private_key(alloc, disk, entry, named.key) {
        Ok(key) => key,
        Err(error) => return Err(error),
    };
    match public_key(alloc, disk, entry, named.public_key, &private_key) {
        Ok(public_key) => Ok(EntryParts {
            id,
            private_key,
            public_key,
        }),
        Err(error) => Err(error),
    }
}

fn read_entry<D: Disk>(
    alloc: Global,
    disk: &mut D,
    entry: usize,
    named: &NamedEntry<'_>,
) -> Result<EntryParts, PackError>
    ensures { Tries plain_entry (λ files. EntryRules files entry (named_entry named.now)) (D.files disk.old) (D.files disk.new) (D.faults disk.old)
        (D.faults disk.new) result }
{
    match subject(alloc, entry, named.id) {
        Ok(id) => with_keys(alloc, disk, entry, named, id),
        Err(error) => Err(error),
    }
}

/// The entries that a manifest names, in its order.
pub(crate) fn read_entries<D: Disk>(
    alloc: Global,
    disk: &mut D,
    named: &[NamedEntry<'_>],
) -> Result<Vec<EntryParts>, PackError>
    ensures { Tries (λ v. map plain_entry v.items) (λ files. Each (EntryRules files) 0 (map named_entry named.now)) (D.files disk.old) (D.files disk.new)
        (D.faults disk.old) (D.faults disk.new) result }
{
    let mut entries = Vec::new(alloc);
    for (number, one) in named.iter().enumerate() {
        match read_entry(alloc, disk, number, one) {
            Ok(entry) => entries.push(entry)?,
            Err(error) => return Err(error),
        }
    }
    Ok(entries)
}

//! Whether each entry has a bundle.
ghost use Rattle.std.specs.Prelude.{◌≡◌, List, ℕ, map};
ghost use Rattle.identity_update.specs.BundleMap.{HasTheDomains};
ghost use Rattle.identity_update.specs.Kept.{kept_entry};
ghost use Rattle.identity_update.specs.Parts.{Bundle};
ghost use Rattle.identity_update.specs.Verdict.{members_check};

use crate::error::UpdateError;
use crate::kept::KeptEntry;
use spiffe_bundle::JwtBundleSet;

/// Looks for a bundle of each entry's trust domain, in the set that was made of the bundles while their key sets were read.
pub(crate) fn check_members(set: &JwtBundleSet, entries: &[KeptEntry]) -> Result<(), UpdateError>
    ensures { (document : List ℕ) (bundles : List Bundle) → HasTheDomains set.now bundles
        → result ≡ members_check 0 bundles (map (kept_entry document) entries.now) }
{
    for (number, entry) in entries.iter().enumerate() {
        if set.get_ref(entry.id.trust_domain()).is_none() {
            return Err(UpdateError::MissingBundle { entry: number });
        }
    }
    Ok(())
}

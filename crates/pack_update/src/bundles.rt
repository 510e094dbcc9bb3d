//! The bundles of an update, by what a manifest names.
ghost use Rattle.std.specs.Prelude.{◌≡◌, map};
ghost use Rattle.identity_update.specs.Bundle.{plain_bundle};
ghost use Rattle.identity_update.specs.Verdict.{map_refusal};
ghost use Rattle.spiffe_id.specs.TrustDomain.{trust_domain_of};
ghost use Rattle.pack_update.specs.Packed.{BundleRules};
ghost use Rattle.pack_update.specs.Rules.{Each, Gives, Is};
ghost use Rattle.pack_update.specs.Tries.{Tries};
ghost use Rattle.pack_manifest.specs.Views.{named_bundle};

use crate::error::{FileError, PackError};
use crate::files::read_whole;
use identity_io::Disk;
use identity_update::BundleParts;
use pack_manifest::NamedBundle;
use spiffe_id::{SpiffeIdError, TrustDomain};
use std::alloc::Global;

fn domain(alloc: Global, bundle: usize, name: &str) -> Result<TrustDomain, PackError>
    ensures { Gives (λ domain. domain) (Is (map_refusal (PackError.Domain bundle) (trust_domain_of name.now))) result }
{
    match TrustDomain::new(alloc, name) {
        Ok(domain) => Ok(domain),
        Err(SpiffeIdError::OutOfMemory) => Err(PackError::OutOfMemory),
        Err(cause) => Err(PackError::Domain { bundle, cause }),
    }
}

fn read_bundle<D: Disk>(
    alloc: Global,
    disk: &mut D,
    bundle: usize,
    named: &NamedBundle<'_>,
) -> Result<BundleParts, PackError>
    ensures { Tries plain_bundle (λ files. BundleRules files bundle (named_bundle named.now)) (D.files disk.old) (D.files disk.new) (D.faults disk.old)
        (D.faults disk.new) result }
{
    let trust_domain = match domain(alloc, bundle, named.domain) {
        Ok(domain) => domain,
        Err(error) => return Err(error),
    };
    let missing = PackError::JwksFile {
        bundle,
        cause: FileError::Missing,
    };
    let too_long = PackError::JwksFile {
        bundle,
        cause: FileError::TooLong,
    };
    match read_whole(alloc, disk, named.jwks, missing, too_long) {
        Ok(jwks) => Ok(BundleParts { trust_domain, jwks }),
        Err(error) => Err(error),
    }
}

/// The bundles that a manifest names, in its order.
pub(crate) fn read_bundles<D: Disk>(
    alloc: Global,
    disk: &mut D,
    named: &[NamedBundle<'_>],
) -> Result<Vec<BundleParts>, PackError>
    ensures { Tries (λ v. map plain_bundle v.items) (λ files. Each (BundleRules files) 0 (map named_bundle named.now)) (D.files disk.old) (D.files disk.new)
        (D.faults disk.old) (D.faults disk.new) result }
{
    let mut bundles = Vec::new(alloc);
    for (number, one) in named.iter().enumerate() {
        match read_bundle(alloc, disk, number, one) {
            Ok(bundle) => bundles.push(bundle)?,
            Err(error) => return Err(error),
        }
    }
    Ok(bundles)
}

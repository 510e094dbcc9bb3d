//! Equality of updates.
ghost use Rattle.std.specs.Prelude.{◌≡◌, nat_eq, map, option_map};
ghost use Rattle.std.specs.Option.{option_eq};
ghost use Rattle.std.specs.Cmp.{partial_equiv_from_equiv};
ghost use Rattle.std.specs.Cmp.Lexicographic.{pointwise};
ghost use Rattle.spki.specs.PlainPublicKey.{plain_public_key_ref};
ghost use Rattle.spki.specs.Same.{same_public_key};
ghost use Rattle.pkcs8.specs.PlainPrivateKey.{plain_private_key_ref};
ghost use Rattle.pkcs8.specs.Same.{same_private_key};
ghost use Rattle.identity_update.specs.Bundle.{plain_bundle};
ghost use Rattle.identity_update.specs.SameUpdate.{same_bundle, same_entry, same_update, updates_equiv};

use crate::bundle::BundleParts;
use crate::entries::Entries;
use crate::identity::Identity;
use crate::update::Update;
use pkcs8::PrivateKeyInfoRef;
use pkcs8::laws::equal_keys_are_the_same;
use spki::SubjectPublicKeyInfoRef;
use spki::laws::equal_public_keys_are_the_same;

fn same_private_keys(a: &PrivateKeyInfoRef<'_>, b: &PrivateKeyInfoRef<'_>) -> bool
    ensures { result ≡ same_private_key (plain_private_key_ref a.now) (plain_private_key_ref b.now) }
{
    equal_keys_are_the_same();
    a == b
}

fn same_public_keys(a: &SubjectPublicKeyInfoRef<'_>, b: &SubjectPublicKeyInfoRef<'_>) -> bool
    ensures { result ≡ same_public_key (plain_public_key_ref a.now) (plain_public_key_ref b.now) }
{
    equal_public_keys_are_the_same();
    a == b
}

fn same_identity(a: &Identity<'_>, b: &Identity<'_>) -> bool
    ensures { result ≡ same_entry a.now b.now }
{
    a.id() == b.id()
        && same_private_keys(&a.private_key(), &b.private_key())
        && same_public_keys(&a.public_key(), &b.public_key())
}

fn same_entries(mut a: Entries<'_>, mut b: Entries<'_>) -> bool
    ensures { result ≡ pointwise same_entry a.entry b.entry }
{
    loop {
        match (a.next(), b.next()) {
            (None, None) => return true,
            (Some(first), Some(second)) => {
                if !same_identity(&first, &second) {
                    return false;
                }
            }
            _ => return false,
        }
    }
}

fn same_bundles(a: &[BundleParts], b: &[BundleParts]) -> bool
    ensures { result ≡ pointwise same_bundle (map plain_bundle a.now) (map plain_bundle b.now) }
{
    a == b
}

fn same_reason(a: Option<&str>, b: Option<&str>) -> bool
    ensures { result ≡ option_eq (pointwise nat_eq) (option_map (λ text. text.now) a.entry) (option_map (λ text. text.now) b.entry) }
{
    a == b
}

impl PartialEq for Update {
    ghost eq = { same_update };

    ghost laws = { partial_equiv_from_equiv updates_equiv };

    fn eq(&self, other: &Self) -> bool {
        same_entries(self.entries(), other.entries())
            && same_bundles(self.bundles(), other.bundles())
            && same_reason(self.reason(), other.reason())
    }
}

impl Eq for Update {
    ghost laws = { updates_equiv };
}

//! The lines of a report.
ghost use Rattle.std.specs.Prelude.{◌≡◌, ◌++◌, ◌<◌, ◌^◌, IfOk, OnOk, List, ℕ, option_map, codes, decimal, length, string_bytes};
ghost use Rattle.std.specs.List.{flat_map};
ghost use Rattle.std.specs.Map.{values_of};
ghost use Rattle.der_core.specs.Oid.{oid_text};
ghost use Rattle.spiffe_id.specs.SpiffeId.{id_text};
ghost use Rattle.spki.specs.Fingerprint.{fingerprint_of};
ghost use Rattle.spki.specs.PlainPublicKey.{plain_public_key_ref, public_key_der};
ghost use Rattle.tool_commands.specs.Report.{bundle_line, bundle_words, identity_line, key_id_word, report_lines, withdrawn_line};

use crate::printed::push_printed;
use identity_source::{Entries, Identity};
use spiffe_bundle::{JwtBundle, JwtBundleSet};
use spki::{Error, SubjectPublicKeyInfoRef};
use std::alloc::{AllocError, Global};

// The fingerprint of a public key whose document fits.
fn fingerprint(alloc: Global, key: &SubjectPublicKeyInfoRef<'_>) -> Result<String, AllocError>
    requires { length (public_key_der (plain_public_key_ref key.now)) < 2 ^ 32 }
    ensures { IfOk result (λ text. string_bytes text ≡ fingerprint_of (public_key_der (plain_public_key_ref key.now))) }
{
    match key.fingerprint_base64(alloc) {
        Ok(text) => Ok(text),
        Err(Error::OutOfMemory) => Err(AllocError),
        Err(_) => unreachable!(),
    }
}

fn identity_text(alloc: Global, identity: &Identity<'_>) -> Result<String, AllocError>
    ensures { IfOk result (λ text. string_bytes text ≡ identity_line identity.now) }
{
    let key = identity.public_key();
    let fingerprint = fingerprint(alloc, &key)?;
    format!(in alloc;
        "identity {} {} {fingerprint}\n",
        identity.id(),
        key.algorithm.oid
    )
}

fn push_identities(out: &mut Vec<u8>, alloc: Global, entries: Entries<'_>) -> Result<(), AllocError>
    ensures { OnOk result (out.new.items ≡ out.old.items ++ flat_map identity_line entries.entry) }
{
    for identity in entries {
        let line = identity_text(alloc, &identity)?;
        out.extend_from_slice(line.as_bytes())?;
    }
    Ok(())
}

fn push_key_ids(out: &mut Vec<u8>, bundle: &JwtBundle) -> Result<(), AllocError>
    ensures { OnOk result (out.new.items ≡ out.old.items ++ flat_map key_id_word (values_of bundle.now.authorities)) }
{
    for authority in bundle.jwt_authorities() {
        out.extend_from_slice(b" ")?;
        push_printed(out, authority.key_id().as_bytes())?;
    }
    Ok(())
}

/// Appends what a line says of a trust domain: its name, how many keys it has, and their key IDs. It errs for want of
/// memory alone.
pub fn push_bundle_words(
    out: &mut Vec<u8>,
    alloc: Global,
    name: &str,
    bundle: &JwtBundle,
) -> Result<(), AllocError>
    ensures { OnOk result (out.new.items ≡ out.old.items ++ bundle_words name.now bundle.now) }
{
    let head = format!(in alloc; "{name} {}", bundle.authority_count())?;
    out.extend_from_slice(head.as_bytes())?;
    push_key_ids(out, bundle)?;
    out.extend_from_slice(b"\n")
}

fn push_bundles(out: &mut Vec<u8>, alloc: Global, bundles: &JwtBundleSet) -> Result<(), AllocError>
    ensures { OnOk result (out.new.items ≡ out.old.items ++ flat_map bundle_line bundles.now) }
{
    for (name, bundle) in bundles.iter() {
        out.extend_from_slice(b"bundle ")?;
        push_bundle_words(out, alloc, name.as_str(), bundle)?;
    }
    Ok(())
}

fn push_reason(out: &mut Vec<u8>, reason: Option<&str>) -> Result<(), AllocError>
    ensures { OnOk result (out.new.items ≡ out.old.items ++ withdrawn_line (option_map (λ text. text.now) reason.entry)) }
{
    match reason {
        None => Ok(()),
        Some(text) => {
            out.extend_from_slice(b"withdrawn ")?;
            push_printed(out, text.as_bytes())?;
            out.extend_from_slice(b"\n")
        }
    }
}

/// The report of a state of this revision: why its identities were withdrawn, its entries, and the keys of its trust
/// domains. It errs for want of memory alone.
pub fn report_text(
    alloc: Global,
    revision: u64,
    reason: Option<&str>,
    entries: Entries<'_>,
    bundles: &JwtBundleSet,
) -> Result<Vec<u8>, AllocError>
    ensures { IfOk result (λ text. text.items ≡ report_lines revision (option_map (λ text. text.now) reason.entry) entries.entry bundles.now) }
{
    let mut text = format!(in alloc; "revision {revision}\n")?.into_bytes();
    push_reason(&mut text, reason)?;
    push_identities(&mut text, alloc, entries)?;
    push_bundles(&mut text, alloc, bundles)?;
    Ok(text)
}

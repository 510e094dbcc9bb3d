//! Replies in one state.
ghost use Rattle.std.specs.Prelude.{◌≡◌, ◌++◌, IfOk, OnOk, option_map};
ghost use Rattle.std.specs.Arc.{arc_value};
ghost use Rattle.tool_script.specs.Reply.{accepted_reply, bundle_reply, keys_words, standing, svid_reply};

use identity_source::{Identity, Snapshot};
use spiffe_bundle::JwtBundle;
use spiffe_id::TrustDomain;
use std::alloc::{AllocError, Global};
use std::sync::Arc;
use tool_commands::{push_bundle_words, push_printed};

/// The reply to an update that was applied as this revision. It errs for want of memory alone.
pub fn accepted_text(alloc: Global, revision: u64) -> Result<Vec<u8>, AllocError>
    ensures { IfOk result (λ reply. reply.items ≡ accepted_reply revision) }
{
    Ok(format!(in alloc; "accepted {revision}\n")?.into_bytes())
}

// Appends the default identity, or why there is none.
fn push_standing(
    reply: &mut Vec<u8>,
    alloc: Global,
    identity: Option<Identity<'_>>,
    reason: Option<&str>,
) -> Result<(), AllocError>
    ensures { OnOk result (reply.new.items ≡ reply.old.items ++ standing identity.entry (option_map (λ text. text.now) reason.entry)) }
{
    match identity {
        Some(identity) => {
            let id = format!(in alloc; "{}", identity.id())?;
            reply.extend_from_slice(id.as_bytes())
        }
        None => match reason {
            Some(reason) => {
                reply.extend_from_slice(b"withdrawn ")?;
                push_printed(reply, reason.as_bytes())
            }
            None => reply.extend_from_slice(b"none"),
        },
    }
}

/// The reply to a query for the default identity. It errs for want of memory alone.
pub fn svid_text(alloc: Global, state: &Snapshot) -> Result<Vec<u8>, AllocError>
    ensures { IfOk result (λ reply. reply.items ≡ svid_reply state.now) }
{
    let mut reply = format!(in alloc; "svid {} ", state.revision())?.into_bytes();
    push_standing(&mut reply, alloc, state.svid(), state.withdrawn())?;
    reply.extend_from_slice(b"\n")?;
    Ok(reply)
}

// Appends the keys of a trust domain, or that it has none.
fn push_keys(
    reply: &mut Vec<u8>,
    alloc: Global,
    domain: &TrustDomain,
    bundle: Option<&Arc<JwtBundle>>,
) -> Result<(), AllocError>
    ensures { OnOk result (reply.new.items ≡ reply.old.items ++ keys_words domain.now (option_map (λ a. arc_value a.now) bundle.entry)) }
{
    match bundle {
        Some(bundle) => push_bundle_words(reply, alloc, domain.as_str(), bundle),
        None => {
            reply.extend_from_slice(domain.as_str().as_bytes())?;
            reply.extend_from_slice(b" missing\n")
        }
    }
}

/// The reply to a query for the keys of a trust domain. It errs for want of memory alone.
pub fn bundle_text(
    alloc: Global,
    domain: &TrustDomain,
    state: &Snapshot,
) -> Result<Vec<u8>, AllocError>
    ensures { IfOk result (λ reply. reply.items ≡ bundle_reply domain.now state.now) }
{
    let mut reply = format!(in alloc; "bundle {} ", state.revision())?.into_bytes();
    push_keys(
        &mut reply,
        alloc,
        domain,
        state.bundle_set().get_ref(domain),
    )?;
    Ok(reply)
}

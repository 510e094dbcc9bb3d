//! The answer to a request, by a source and its reader.
ghost use Rattle.std.specs.Prelude.{◌≡◌, ◌⊎◌, ℕ, List, IfOk, OnOk};
ghost use Rattle.identity_source.specs.History.{EndsWith};
ghost use Rattle.tool_script.specs.Next.{meaning};
ghost use Rattle.tool_script.specs.Replies.{Accepts, IsReply, Refuses};
ghost use Rattle.tool_script.specs.Session.{Attends};

use crate::reply::{accepted_text, bundle_text, svid_text};
use crate::request::Request;
use identity_source::laws::states_are_told_by_revision;
use identity_source::{IdentityReader, IdentitySource, Snapshot};
use refusal_lines::refusal_text;
use std::alloc::{AllocError, Global};
use std::sync::Wait;
use tool_commands::chosen;

// Applies the update, and tells the reader of it.
fn applied<R: Wait>(
    rt: &R,
    alloc: Global,
    width: usize,
    text: &[u8],
    source: &mut IdentitySource,
    reader: &mut IdentityReader,
) -> Result<Vec<u8>, AllocError>
    requires { Attends source.old reader.old }
    ensures reply { IfOk result (λ reply. Accepts width source.old.list text.now source.new.list reply.items
        ⊎ Refuses width source.old.list text.now source.new.list reply.items) }
    ensures attends { OnOk result (Attends source.new reader.new) }
{
    match source.apply(rt, text, width) {
        Ok(receipt) => {
            let revision = receipt.revision();
            reader.told(receipt);
            accepted_text(alloc, revision)
        }
        Err(error) => Ok(refusal_text(alloc, &error)?.into_bytes()),
    }
}

// A share of the last state.
fn last_state(source: &IdentitySource, reader: &mut IdentityReader) -> Result<Snapshot, AllocError>
    requires { Attends source.now reader.old }
    ensures last { IfOk result (λ state. EndsWith source.now.list state) }
    ensures attends { OnOk result (Attends source.now reader.new) }
{
    states_are_told_by_revision();
    let latest = source.latest();
    match chosen(reader.current(), latest, latest.revision()).try_clone() {
        Ok(state) => Ok(state),
        Err(_) => Err(AllocError),
    }
}

/// The reply to a request. A reader that was told of all that the source did stays so.
pub(crate) fn answer<R: Wait>(
    rt: &R,
    alloc: Global,
    width: usize,
    request: &Request,
    source: &mut IdentitySource,
    reader: &mut IdentityReader,
) -> Result<Vec<u8>, AllocError>
    requires { Attends source.old reader.old }
    ensures reply { IfOk result (λ reply. (name : List ℕ) → IsReply width source.old.list (meaning name request.now) source.new.list reply.items) }
    ensures attends { OnOk result (Attends source.new reader.new) }
{
    match request {
        Request::Update(text) => applied(rt, alloc, width, text, source, reader),
        Request::Svid => svid_text(alloc, &last_state(source, reader)?),
        Request::Bundle(domain) => bundle_text(alloc, domain, &last_state(source, reader)?),
    }
}

//! The one side that applies the updates.
ghost use Rattle.std.specs.Prelude.{◌≡◌, ◌≤◌, ◌++◌, ◌⊎◌, ◌∷◌, [], ℕ, List, IfOk, OnOk};
ghost use Rattle.identity_source.specs.State.{opening};
ghost use Rattle.tool_script.specs.Replies.{Accepts, Refuses};
ghost use Rattle.tool_watch.specs.Applied.{HaveReplies, IsKept, IsList};
ghost use Rattle.tool_watch.specs.Asked.{updates_in};

use crate::gate::Gate;
use identity_source::laws::states_are_told_by_revision;
use identity_source::{IdentitySource, Snapshot};
use refusal_lines::refusal_text;
use std::alloc::{AllocError, Global};
use std::sync::Wait;
use tool_script::accepted_text;

/// A share of each state of the source's list, and the replies to its updates.
#[derive(Drop)]
pub(crate) struct Applied {
    pub(crate) states: Vec<Snapshot>,
    pub(crate) replies: Vec<u8>,
}

// A further share of the state.
fn share(state: &Snapshot) -> Result<Snapshot, AllocError>
    ensures { IfOk result (λ share. share ≡ state.now) }
{
    match state.try_clone() {
        Ok(share) => Ok(share),
        Err(_) => Err(AllocError),
    }
}

impl Applied {
    /// A source that was just opened at 0.
    pub(crate) fn opened(alloc: Global, source: &IdentitySource) -> Result<Self, AllocError>
        requires { source.now.list ≡ opening 0 ∷ [] }
        ensures kept { IfOk result (λ applied. IsKept source.now.list applied.states.items) }
        ensures replies { IfOk result (λ applied. applied.replies.items ≡ []) }
    {
        states_are_told_by_revision();
        let mut states = Vec::new(alloc);
        states.push(share(source.latest())?)?;
        Ok(Applied {
            states,
            replies: Vec::new(alloc),
        })
    }

    // Applies one update.
    fn apply<R: Wait>(
        &mut self,
        rt: &R,
        alloc: Global,
        width: usize,
        source: &mut IdentitySource,
        text: &[u8],
    ) -> Result<(), AllocError>
        requires { IsKept source.old.list self.old.states.items }
        ensures reply { OnOk result ((reply : List ℕ) × ((Accepts width source.old.list text.now source.new.list reply
            ⊎ Refuses width source.old.list text.now source.new.list reply)
            × (self.new.replies.items ≡ self.old.replies.items ++ reply))) }
        ensures kept { OnOk result (IsKept source.new.list self.new.states.items) }
        ensures name { source.new.name ≡ source.old.name }
    {
        states_are_told_by_revision();
        match source.apply(rt, text, width) {
            Ok(receipt) => {
                self.states.push(share(receipt.snapshot())?)?;
                let reply = accepted_text(alloc, receipt.revision())?;
                self.replies.extend_from_slice(&reply)
            }
            Err(error) => {
                let reply = refusal_text(alloc, &error)?;
                self.replies.extend_from_slice(reply.as_bytes())
            }
        }
    }

    /// Applies updates one after another, the first of which has this place among all.
    pub(crate) fn apply_all<R: Wait, G: Gate>(
        &mut self,
        rt: &R,
        alloc: Global,
        width: usize,
        gate: &G,
        source: &mut IdentitySource,
        first: usize,
        texts: &[Vec<u8>],
    ) -> Result<(), AllocError>
        requires kept { IsKept source.old.list self.old.states.items }
        requires places { first ≤ 1 }
        ensures replies { OnOk result (HaveReplies width source.old.list (updates_in texts.now) source.new.list self.old.replies.items self.new.replies.items) }
        ensures kept { OnOk result (IsKept source.new.list self.new.states.items) }
        ensures name { source.new.name ≡ source.old.name }
    {
        for (place, text) in texts.iter().enumerate() {
            self.apply(rt, alloc, width, source, text)?;
            gate.applied(first + place);
        }
        Ok(())
    }
}

/// Applies the updates behind the first one.
pub(crate) fn apply_rest<R: Wait, G: Gate>(
    rt: &R,
    alloc: Global,
    width: usize,
    gate: &G,
    source: &mut IdentitySource,
    mut applied: Applied,
    texts: &[Vec<u8>],
) -> Result<Applied, AllocError>
    requires { IsKept source.old.list applied.states.items }
    ensures replies { IfOk result (λ done. HaveReplies width source.old.list (updates_in texts.now) done.states.items applied.replies.items
        done.replies.items) }
    ensures list { IfOk result (λ done. IsList done.states.items) }
{
    applied.apply_all(rt, alloc, width, gate, source, 1, texts)?;
    Ok(applied)
}

//! Callers that list `identity_source` alone: what readers keep of what they were told, from public items.
#![tactic(auto)]

ghost use Rattle.std.specs.Prelude.{◌≡◌, ◌≤◌, ◌∷◌, [], true, IfOk, Some};
ghost use Rattle.identity_source.specs.History.{IsHistory, StartsWith};
ghost use Rattle.identity_source.specs.declared.kept_reader.Look.TheVariants.{Looked, Missed};
ghost use Rattle.identity_source.specs.declared.window.Missed.TheVariants.{NoGuard};
ghost use Rattle.source_callers.specs.Told.{GivesLatest, Heeds};

use identity_source::laws::states_are_counted_by_revision;
use identity_source::{
    IdentityReader, IdentitySource, KeptReader, Missing, Pane, Receipt, UpdateError, Window,
};
use std::sync::Wait;

/// Tells a reader of any receipt, and looks.
pub fn tell_and_look<W: Window>(reader: &mut KeptReader<W>, receipt: Receipt)
    requires { receipt.name ≡ reader.old.sight.name }
    ensures heeds { Heeds reader.old reader.new receipt }
    ensures name { reader.new.sight.name ≡ reader.old.sight.name }
{
    reader.told(receipt);
    reader.current();
}

/// Tells a reader of two receipts, whichever is the later one, and looks.
pub fn tell_both_and_look<W: Window>(reader: &mut KeptReader<W>, one: Receipt, other: Receipt)
    requires one { one.name ≡ reader.old.sight.name }
    requires other { other.name ≡ reader.old.sight.name }
    ensures one { Heeds reader.old reader.new one }
    ensures other { Heeds reader.old reader.new other }
{
    reader.told(one);
    reader.told(other);
    reader.current();
}

/// Tells two readers of one receipt: where both see, their lists agree up to it.
pub fn tell_two_readers<W: Window, V: Window>(
    one: &mut KeptReader<W>,
    other: &mut KeptReader<V>,
    receipt: Receipt,
    share: Receipt,
)
    requires one { receipt.name ≡ one.old.sight.name }
    requires other { receipt.name ≡ other.old.sight.name }
    requires share { share ≡ receipt }
    ensures one { one.new.look ≡ Some Looked → StartsWith one.new.list receipt.list }
    ensures other { other.new.look ≡ Some Looked → StartsWith other.new.list receipt.list }
{
    one.told(receipt);
    other.told(share);
    one.current();
    other.current();
}

/// Looks twice with a reader that is told of nothing: it goes forward alone.
pub fn look_twice<W: Window>(reader: &mut KeptReader<W>) -> (u64, u64)
    ensures begins { StartsWith reader.new.list reader.old.list }
    ensures history { IsHistory reader.new.list }
    ensures forward { result.0 ≤ result.1 }
{
    states_are_counted_by_revision();
    let first = reader.current().revision();
    let second = reader.current().revision();
    (first, second)
}

/// Applies an update, tells a reader of it, and looks: the revision is that of the state applied or of a later one.
pub fn apply_and_look<R: Wait>(
    rt: &R,
    source: &mut IdentitySource,
    reader: &mut IdentityReader,
    text: &[u8],
    width: usize,
) -> Result<u64, UpdateError>
    requires { reader.old.sight.name ≡ source.old.name }
    ensures { IfOk result (GivesLatest source.new reader.new) }
{
    states_are_counted_by_revision();
    let receipt = source.apply(rt, text, width)?;
    let _revision = receipt.revision();
    let _state = receipt.snapshot();
    reader.told(receipt);
    Ok(reader.current().revision())
}

/// Of two receipts of one source one's list begins with the other's.
pub fn later_of(one: Receipt, other: Receipt) -> Receipt
    requires { other.name ≡ one.name }
    ensures one { StartsWith result.list one.list }
    ensures other { StartsWith result.list other.list }
{
    if one.covers(&other) { one } else { other }
}

/// Looks with a reader whose look 0 is to miss: it misses so, and the list stays.
pub fn miss_first(reader: IdentityReader, failing: Vec<u64>) -> KeptReader<Missing<Pane>>
    requires live { reader.sight.is_live ≡ true }
    requires first { failing.items ≡ 0 ∷ [] }
    ensures look { result.look ≡ Some (Missed NoGuard) }
    ensures list { result.list ≡ reader.list }
{
    let mut reader = reader.with_misses(failing);
    reader.current();
    reader
}

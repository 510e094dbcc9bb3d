//! One publish.
ghost use Rattle.std.specs.Prelude.{◌≡◌, [], ◌∷◌, ◌++◌, drop, fold, Some, MatchResult};
ghost use Rattle.crossbeam_utils.specs.Register.{TurnsAt};
ghost use Rattle.left_right.specs.Sides.{view};
ghost use Rattle.identity_source.specs.History.{StartsWith};

use crate::published::Published;
use crate::rule::{ListWriter, Takes};
use core::mem::replace_with;
use crossbeam_utils::rule::{Outcome, Protocol};
use left_right::Absorb;
use left_right::writer::Writer;
use std::alloc::AllocError;
use std::sync::Wait;

// `publish_as` behind a reference.
fn show<T: Absorb<O> + Drop, O: Drop, V, P: Protocol<T, V>, M: Outcome<T, V>, R: Wait>(
    writer: &mut Writer<T, O, V, P>,
    rt: &R,
) -> Result<(), AllocError>
    requires { (next : T) →
        T.state next ≡ fold T.applied (T.state writer.old.desk.shown.value) (drop writer.old.behind writer.old.log.items) →
        TurnsAt P.holds writer.old.desk.place.id (view writer.old.desk.place) writer.old.desk.shown.value next M.then }
    ensures values { MatchResult result (λ _. (T.state writer.new.desk.shown.value ≡
        fold T.applied (T.state writer.old.desk.shown.value) (drop writer.old.behind writer.old.log.items)) ×
        (drop writer.new.behind writer.new.log.items ≡ []))
        (λ _. (writer.new.desk.shown.value ≡ writer.old.desk.shown.value) ×
        (drop writer.new.behind writer.new.log.items ≡ drop writer.old.behind writer.old.log.items)) }
    ensures rule { MatchResult result
        (λ _. M.then (view writer.old.desk.place) writer.old.desk.shown.value writer.new.desk.shown.value (view writer.new.desk.place))
        (λ _. view writer.new.desk.place ≡ view writer.old.desk.place) }
{
    replace_with(writer, rt, |writer, rt| writer.publish_as::<M, R>(rt))
}

/// Shows readers the next list. At `Err` they see what they saw, and what then waits in the writer is replaced by the next publish.
pub(crate) fn publish<R: Wait>(
    writer: &mut ListWriter,
    rt: &R,
    next: Published,
) -> Result<(), AllocError>
    requires { (next.name ≡ writer.old.desk.shown.value.name) × StartsWith next.list writer.old.desk.shown.value.list }
    ensures { MatchResult result (λ _. (writer.new.desk.shown.value ≡ next) × (view writer.new.desk.place ≡ Some next))
        (λ _. writer.new.desk.shown.value ≡ writer.old.desk.shown.value) }
{
    let Ok(()) = writer.append(next) else {
        return Err(AllocError);
    };
    let Ok(()) = show::<Published, Published, Option<Published>, _, Takes, R>(writer, rt) else {
        return Err(AllocError);
    };
    Ok(())
}

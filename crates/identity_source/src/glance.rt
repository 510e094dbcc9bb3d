//! One look at what is published.
ghost use Rattle.std.specs.Prelude.{◌≡◌, Some, MatchBool, MatchResult};
ghost use Rattle.left_right.specs.Sides.{view};
ghost use Rattle.identity_source.specs.Pane.{Glanced, Heeds, Later, MayBeNamed};
ghost use Rattle.identity_source.specs.Rule.{Knows};

use crate::published::{Mark, Published};
use crate::rule::{PlaceReader, Takes};
use crate::window::Missed;

/// Enters, takes a share and leaves, so that a share that is kept holds up no publish.
pub(crate) fn glance(reader: PlaceReader) -> (PlaceReader, Result<Published, Missed>)
    ensures { MatchResult result.1 (λ x. (view result.0.place ≡ Some x) × Knows x (view reader.place))
        (λ m. Glanced (view reader.place) (view result.0.place) m) }
{
    match reader.enter_as::<Takes>() {
        Ok(entered) => match entered.get().try_clone() {
            Ok(published) => (entered.leave(), Ok(published)),
            Err(_) => (entered.leave(), Err(Missed::OutOfMemory)),
        },
        Err(reader) => (reader, Err(Missed::NoGuard)),
    }
}

/// Whether the list is known to begin with what was told.
pub(crate) fn heeds(published: &Published, told: &Option<Mark>) -> bool
    requires { MayBeNamed published.now.name told.now }
    ensures { MatchBool result (Heeds published.now told.now) (Unit {0}) }
{
    match told {
        None => true,
        Some(mark) => published.covers(mark),
    }
}

/// The later of two marks.
pub(crate) fn later(old: Option<Mark>, new: Mark) -> Mark
    requires { MayBeNamed new.name old }
    ensures { Later old new result }
{
    match old {
        None => new,
        Some(old) => { if old.covers(&new) { old } else { new } }
    }
}

//! The rule over the published list, and what each seat knows of it.
use crate::published::Published;
use atomic_table::{Join, Split};
use crossbeam_utils::rule::{Outcome, Protocol};
use left_right::reader::Reader;
use left_right::writer::Writer;

/// Each seat knows a beginning of the published list, or nothing.
pub struct OneList;

impl Protocol<Published, Option<Published>> for OneList {
    ghost use Rattle.std.specs.Prelude.{None};
    ghost use Rattle.identity_source.specs.Rule.{Keeps};

    ghost holds = { Keeps };

    ghost first = { None };
}

/// A step that sees the published list, or publishes the next one.
pub struct Takes;

impl Outcome<Published, Option<Published>> for Takes {
    ghost use Rattle.identity_source.specs.Rule.{Sees};

    ghost then = { Sees };
}

/// A note tells a reader the writer's list.
pub struct Notes;

impl Split<Option<Published>> for Notes {
    ghost left = { λ v. v };

    ghost right = { λ v. v };
}

impl Join<Option<Published>> for Notes {
    ghost use Rattle.std.specs.Prelude.{None};

    ghost both = { λ v n. n };

    ghost spent = { None };
}

/// A reader's place at the two copies.
pub type PlaceReader = Reader<Published, Option<Published>, OneList>;

/// The one that publishes.
pub type ListWriter = Writer<Published, Published, Option<Published>, OneList>;

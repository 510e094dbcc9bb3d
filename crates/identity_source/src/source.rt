//! The identity source.
use crate::attempt::SourceLog;
use crate::receipt::Receipt;
use crate::rule::ListWriter;
use std::alloc::Global;
use std::marker::Model;

mod calls;

/// The one end of a list of states that can append to it. It can't be dropped: end it by `close`.
///
/// Contracts see it as its list, under the name that `open` gave to it and to its readers. Of a reader's list they say
/// what it has to do with those of receipts, and not that it is a beginning of this one.
pub struct IdentitySource {
    writer: ListWriter,
    log: SourceLog,
    last: Receipt,
    alloc: Global,
}

impl Model for IdentitySource {
    ghost use Rattle.identity_source.specs.NamedList.{NamedList};
    ghost use Rattle.identity_source.specs.SourceParts.{IsSource};

    ghost Value = { NamedList };

    ghost view = { λ s. s.last };

    ghost invariant = { λ s. IsSource s.writer.desk.shown.value s.log s.last };
}

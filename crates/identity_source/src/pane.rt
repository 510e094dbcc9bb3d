//! The window over the two copies.
ghost use Rattle.std.specs.Prelude.{◌≡◌, Some};
ghost use Rattle.left_right.specs.Sides.{view};
ghost use Rattle.identity_source.specs.NamedList.{IsListed};
ghost use Rattle.identity_source.specs.Pane.{IsFreshSight};

use crate::glance::{glance, heeds, later};
use crate::memo::{Memo, after_seen, after_told, fresh};
use crate::published::Mark;
use crate::receipt::Receipt;
use crate::rule::{ListWriter, Notes, PlaceReader};
use crate::snapshot::Snapshot;
use crate::window::{Missed, Window};
use std::marker::Model;

/// The window of a source's own readers. A look takes a few atomic steps and one share, whatever the size of the state and the number of readers.
#[derive(Drop)]
pub struct Pane {
    // None where there was no place for it.
    reader: Option<PlaceReader>,
    // The latest mark that it was told of since it last looked.
    told: Option<Mark>,
    memo: Memo,
    // Where it was seated, which has the source's name.
    seated: Mark,
    looks: u64,
    misses: u64,
    refused: u64,
}

impl Model for Pane {
    ghost use Rattle.std.specs.Prelude.{option_map, is_some};
    ghost use Rattle.left_right.specs.Sides.{view as view_of};
    ghost use Rattle.identity_source.specs.Pane.{sight_of, Fits};
    ghost use Rattle.identity_source.specs.Sight.{Sight};

    ghost Value = { Sight };

    ghost view = { λ p. sight_of p.seated.name p.memo.log p.looks p.misses p.refused (is_some p.reader) };

    ghost invariant = { λ p. Fits p.seated.name p.memo.log p.told (option_map (λ r. view_of r.place) p.reader) };
}

impl Pane {
    /// A pane that has seen the list of the mark, with a place if there is one.
    pub(crate) fn seat(writer: &mut ListWriter, mark: &Mark) -> Pane
        requires view { view writer.old.desk.place ≡ Some mark.now }
        requires mark { IsListed mark.now }
        ensures fresh { IsFreshSight mark.now result }
        ensures view { view writer.new.desk.place ≡ view writer.old.desk.place }
        ensures published { writer.new.desk.shown.value ≡ writer.old.desk.shown.value }
    {
        let reader = match writer.factory().reader() {
            Ok(reader) => {
                let mut reader = reader;
                reader.learn::<Notes>(writer.tell::<Notes>());
                Some(reader)
            }
            Err(_) => None,
        };
        Pane {
            reader,
            told: None,
            memo: fresh(mark),
            seated: mark.again(),
            looks: 0,
            misses: 0,
            refused: 0,
        }
    }
}

impl Window for Pane {
    ghost sight = { λ p. p };

    fn enter(&mut self) -> Result<Snapshot, Missed> {
        let Some(reader) = self.reader.take() else {
            self.misses = self.misses.saturating_add(1);
            return Err(Missed::NoPlace);
        };
        let (reader, answer) = glance(reader);
        self.reader = Some(reader);
        match answer {
            Ok(published) => {
                // A receipt is given after its publish, so this is never so.
                if !heeds(&published, &self.told) {
                    self.misses = self.misses.saturating_add(1);
                    return Err(Missed::NoGuard);
                }
                self.memo = after_seen(&self.memo, &published);
                self.told = None;
                self.looks = self.looks.saturating_add(1);
                Ok(published.into_snapshot())
            }
            Err(Missed::OutOfMemory) => {
                self.refused = self.refused.saturating_add(1);
                Err(Missed::OutOfMemory)
            }
            Err(missed) => {
                self.misses = self.misses.saturating_add(1);
                Err(missed)
            }
        }
    }

    fn learn(&mut self, receipt: Receipt) -> Snapshot {
        let (mark, state) = receipt.into_parts();
        if self.reader.is_some() {
            self.memo = after_told(&self.memo, &mark);
            let old = self.told.take();
            self.told = Some(later(old, mark));
        }
        state
    }

    fn live(&self) -> bool {
        self.reader.is_some()
    }
}

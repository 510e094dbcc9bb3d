//! What a pane has seen and was told of, for contracts alone. It has no bytes.
ghost use Rattle.std.specs.Prelude.{◌≡◌, [], ◌∷◌};
ghost use Rattle.identity_source.specs.Pane.{noted_seen, noted_told};

use crate::published::{Mark, Published};
use crate::state::State;
use logbook::{Opening, Rule, Seen, Start};
use std::snapshot::Snapshot as Ghost;

/// The rule of a book to which nothing is written: what it opens with stays.
pub struct Unwritten;

impl Rule<[State; 0], u64> for Unwritten {
    ghost use Rattle.std.specs.Prelude.{[]};
    ghost use base.Fml.{ftrue};

    ghost holds = { λ cells log. Unit {0} };

    ghost first = { [] };

    ghost hinted = { λ n log. Unit {0} };

    ghost shows = { λ log. [] };

    ghost keeps = { λ names log. ftrue };

    ghost moves = { λ ask before after answer. Unit {0} };
}

/// The list that was seen, and then the lists that it must begin with from the next look on.
pub type Memo = Seen<[State; 0], u64, Unwritten>;

struct Opens;

impl Opening<Mark, [State; 0]> for Opens {
    ghost use Rattle.std.specs.Prelude.{[], ◌∷◌};

    ghost log = { λ n mark. mark.list ∷ [] };
}

struct Sees {
    memo: Memo,
    published: Ghost<Published>,
}

impl Opening<Sees, [State; 0]> for Sees {
    ghost use Rattle.identity_source.specs.Pane.{noted_seen};

    ghost log = { λ n s. noted_seen s.memo.log s.published.value };
}

struct Hears {
    memo: Memo,
    mark: Ghost<Mark>,
}

impl Opening<Hears, [State; 0]> for Hears {
    ghost use Rattle.identity_source.specs.Pane.{noted_told};

    ghost log = { λ n s. noted_told s.memo.log s.mark.value };
}

pub(crate) fn fresh(mark: &Mark) -> Memo
    ensures { result.log ≡ mark.now.list ∷ [] }
{
    let (memo, _pens) = Seen::open_row::<Mark, Opens>(mark, Start::alone(), 0);
    memo
}

pub(crate) fn after_seen(memo: &Memo, published: &Published) -> Memo
    ensures { result.log ≡ noted_seen memo.now.log published.now }
{
    let about = Sees {
        memo: memo.again(),
        published: Ghost::of(published),
    };
    let (memo, _pens) = Seen::open_row::<Sees, Sees>(&about, Start::alone(), 0);
    let Sees {
        memo: _,
        published: _,
    } = about;
    memo
}

pub(crate) fn after_told(memo: &Memo, mark: &Mark) -> Memo
    ensures { result.log ≡ noted_told memo.now.log mark.now }
{
    let about = Hears {
        memo: memo.again(),
        mark: Ghost::of(mark),
    };
    let (memo, _pens) = Seen::open_row::<Hears, Hears>(&about, Start::alone(), 0);
    let Hears { memo: _, mark: _ } = about;
    memo
}

ghost use Rattle.std.specs.Prelude.{◌≡◌, ◌∷◌, [], IfSome, false, true};

use crate::RoundLog;
use logbook::Plain;
use std::test::Fail;

/// An entry of the tests' logs. No value of it is made.
struct Sale {
    seat: u64,
    paid: bool,
}

struct Offered;

impl Plain<u64, Sale, u64> for Offered {
    ghost use Rattle.std.specs.Prelude.{None, false};

    ghost ask = { λ n. record { seat = n; paid = false } };

    ghost state = { λ n. None };
}

struct Paid;

impl Plain<u64, Sale, u64> for Paid {
    ghost use Rattle.std.specs.Prelude.{None, true};

    ghost ask = { λ n. record { seat = n; paid = true } };

    ghost state = { λ n. None };
}

fn sold(seat: u64) -> Option<RoundLog<Sale>>
    ensures { IfSome result (λ log. log.entries ≡ record { seat = seat; paid = false } ∷ record { seat = seat; paid = true } ∷ []) }
{
    let mut log: RoundLog<Sale> = RoundLog::open();
    let trial = log.begin::<u64, Offered>(&seat)?;
    log.end::<u64, Paid>(trial, &seat);
    Some(log)
}

#[test]
fn a_round_adds_two_entries(rt: HostRuntime) -> Result<(), Fail> {
    let log = sold(7).ok_or("no round began")?;
    let _token = log.token();
    assert_eq!(rt; log.entry_count(), 2);
    Ok(())
}

#[test]
fn one_round_goes_on_at_a_time(rt: HostRuntime) {
    let log: RoundLog<Sale> = RoundLog::open();
    let first = log.begin::<u64, Offered>(&1);
    let second = log.begin::<u64, Offered>(&2);
    let begun = first.map(|trial| {
        let _token = trial.token();
        trial.entry_count()
    });
    assert_eq!(rt;
        (begun, second.is_none(), log.entry_count()),
        (Some(1), true, 0)
    );
    let dropped = log.begin::<u64, Offered>(&3);
    assert!(rt; dropped.is_none());
}

//! Measures of the markings of a small run, summed, and a condition; all worked out by hand.

ghost use Rattle.std.specs.Prelude.{◌≡◌, ◌*◌, ◌<◌, ◌≤◌, ◌-ℤ◌, length, nat_eq, pos, slice_index};

use crate::network::put_and_get;
use san_base::{Limits, NoMemory, Stop, Tick};
use san_net::Flat;
use san_probe::{Asking, Condition, Gauge, Measure, Reading, Until, Watched, watch};
use std::alloc::Global;
use std::test::Fail;

/// The value of the third place.
#[derive(Clone, Copy)]
struct Third;

impl Measure for Third {
    ghost value = { λ measure m. pos (slice_index m 2) };
}

impl Reading for Third {
    ghost accepts = { λ it m. 2 < length m };

    ghost answers = { λ it m value. value ≡ pos (slice_index m 2) };

    fn read(&self, marking: &[u32]) -> i64 {
        i64::from(marking[2])
    }
}

/// Ten, less twenty for each token of the third place.
#[derive(Clone, Copy)]
struct TenLess;

impl Measure for TenLess {
    ghost value = { λ measure m. pos 10 -ℤ pos (20 * slice_index m 2) };
}

impl Reading for TenLess {
    ghost accepts = { λ it m. 2 < length m };

    ghost answers = { λ it m value. value ≡ pos 10 -ℤ pos (20 * slice_index m 2) };

    fn read(&self, marking: &[u32]) -> i64 {
        10 - 20 * i64::from(marking[2])
    }
}

/// Whether the second place has two tokens.
#[derive(Clone, Copy)]
struct TwoThere;

impl Condition for TwoThere {
    ghost holds = { λ condition m. nat_eq (slice_index m 1) 2 };
}

impl Asking for TwoThere {
    ghost accepts = { λ it m. 1 < length m };

    ghost answers = { λ it m holds. holds ≡ nat_eq (slice_index m 1) 2 };

    fn ask(&self, marking: &[u32]) -> bool {
        marking[1] == 2
    }
}

/// What watching a run comes to, or none where a limit is out of range.
fn watched<F: Reading, M: Measure>(
    alloc: Global,
    flat: &Flat,
    horizon: u64,
    events: u64,
    from: u64,
    to: u64,
    gauge: &Gauge<F, M>,
) -> Result<Option<Watched>, NoMemory>
    requires { gauge.now.1 ≡ length flat.now.initial }
{
    if horizon > 1000 {
        return Ok(None);
    }
    if events == 0 || events > 1000 {
        return Ok(None);
    }
    let limits = Limits {
        horizon: Tick(horizon),
        burst: 1000,
        events,
        window: 16,
        rollbacks: 10000,
    };
    Ok(Some(watch(alloc, flat, 7, limits, Tick(from), Tick(to), gauge)?))
}

/// From tick 2 on the third place has a token.
#[test]
fn sums_over_a_run(rt: HostRuntime) -> Result<(), Fail> {
    let flat = put_and_get(rt.alloc())?;
    assert!(rt; flat.places() == 3);
    let gauge = Gauge::new(Third, Third, 3);
    for ((from, to), sum) in [
        ((0, 10), 8),
        ((1, 4), 2),
        ((2, 3), 1),
        ((9, 11), 2),
        ((5, 5), 0),
        ((7, 3), 0),
        ((20, 4), 0),
    ] {
        let watched = watched(rt.alloc(), &flat, 10, 1000, from, to, &gauge)?;
        assert_eq!(rt; watched, Some(Watched::Sum(sum)));
    }
    Ok(())
}

/// The values are 10 at tick 1, and -10 at 2, 3 and 4.
#[test]
fn sum_of_another_measure(rt: HostRuntime) -> Result<(), Fail> {
    let flat = put_and_get(rt.alloc())?;
    assert!(rt; flat.places() == 3);
    let gauge = Gauge::new(TenLess, TenLess, 3);
    let watched = watched(rt.alloc(), &flat, 10, 1000, 1, 5, &gauge)?;
    assert_eq!(rt; watched, Some(Watched::Sum(-20)));
    Ok(())
}

/// The second completion would pass the limit of events, at 2: there is no sum, wherever the
/// interval ends. A run up to its horizon has one as far as the horizon's tick.
#[test]
fn stopped_and_beyond(rt: HostRuntime) -> Result<(), Fail> {
    let flat = put_and_get(rt.alloc())?;
    assert!(rt; flat.places() == 3);
    let gauge = Gauge::new(Third, Third, 3);
    for to in [1, 10, 12] {
        let watched = watched(rt.alloc(), &flat, 10, 1, 0, to, &gauge)?;
        assert_eq!(rt; watched, Some(Watched::Stopped(Stop::Events(Tick(2)))));
    }
    let whole = watched(rt.alloc(), &flat, 10, 1000, 0, 11, &gauge)?;
    assert_eq!(rt; whole, Some(Watched::Sum(9)));
    let more = watched(rt.alloc(), &flat, 10, 1000, 0, 12, &gauge)?;
    assert_eq!(rt; more, Some(Watched::Beyond));
    Ok(())
}

/// Whether a condition holds in a marking of two places.
#[tactic(auto, using(crate::proofs::ProbeLemmas::pair_is_marking))]
fn holds_in<F: Asking, M: Condition>(until: &Until<F, M>, first: u32, second: u32) -> bool
    requires places { until.now.1 ≡ 2 }
    requires first { first ≤ 2147483647 }
    requires second { second ≤ 2147483647 }
{
    until.at(&[first, second])
}

#[test]
fn condition_on_markings(rt: HostRuntime) -> Result<(), Fail> {
    let until = Until::new(TwoThere, TwoThere, 2);
    assert!(rt; !holds_in(&until, 2, 1));
    assert!(rt; holds_in(&until, 0, 2));
    assert!(rt; !holds_in(&until, 2, 2147483647));
    Ok(())
}

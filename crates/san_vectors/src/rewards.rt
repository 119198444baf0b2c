//! Rewards of a small run that were worked out by hand.

use crate::network::put_and_get;
use san_base::{LeafId, Tick};
use san_reward::{Rated, Tally, Worth};
use std::test::Fail;

/// The network's reward is at tick 6: the impulse at 5 is before it, and the one at 7 behind it.
#[test]
fn impulses_around_a_tick(rt: HostRuntime) -> Result<(), Fail> {
    let flat = put_and_get(rt.alloc())?;
    let mut tally = Tally::open(rt.alloc(), &flat, Tick(1000000000000))?;
    tally.advance(Tick(5));
    tally.impulse(0, Rated::Value(300));
    tally.advance(Tick(6));
    tally.impulse(0, Rated::Value(-20));
    let copy = tally.copy(rt.alloc())?;
    tally.advance(Tick(7));
    tally.impulse(0, Rated::Fault);
    tally.advance(Tick(1000000000000));
    assert_eq!(rt; tally.value(0), Worth::Sum(-20));
    assert_eq!(rt; copy.value(0), Worth::Sum(-20));
    Ok(())
}

/// A network without terms has no rates, whatever is shown: the marking, a leaf's or its rates.
#[test]
fn no_terms_no_rates(rt: HostRuntime) -> Result<(), Fail> {
    let flat = put_and_get(rt.alloc())?;
    assert!(rt; flat.leaves() == 2);
    assert!(rt; flat.places() == 3);
    assert!(rt; flat.rewards().len() == 1);
    let mut tally = Tally::open(rt.alloc(), &flat, Tick(10))?;
    let bare = tally.copy(rt.alloc())?;
    tally.rate_all(&flat, &[0, 1, 0]);
    tally.rate_of_leaf(&flat, LeafId(0), &[0, 1, 0]);
    assert!(rt; tally.terms(LeafId(0)) == 0);
    tally.rate_leaf(LeafId(0), &[]);
    assert!(rt; bare.same(&tally));
    tally.advance(Tick(6));
    assert!(rt; !bare.same(&tally));
    tally.impulse(0, Rated::Value(7));
    tally.advance(Tick(10));
    assert_eq!(rt; tally.value(0), Worth::Sum(7));
    Ok(())
}

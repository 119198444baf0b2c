//! Delays that were worked out by hand, for the first two draws of seed 0 among others.

ghost use Rattle.san_delay.specs.Sound.{IsSoundDelay};

use crate::{DelayTables, Dist, Trap, delay, longest};
use san_base::{Boxed, Items, NoMemory, Op};
use san_expr::{Expr, Marking, dist_below};
use std::alloc::Global;
use std::test::Fail;

const FIRST: u64 = 0x903d_f1a0_ade0_b876;

const SECOND: u64 = 0x28bd_8653_e56a_5d40;

const HALF: u64 = 1 << 63;

/// What a distribution gives for a draw, and at the longest, in a marking of no places.
fn given(alloc: Global, d: &Dist, u: u64) -> Option<(Result<u64, Trap>, Result<u64, Trap>)>
    requires { IsSoundDelay d.now }
{
    let mut view = Marking::new(Vec::new(alloc));
    if dist_below(d, 0) {
        let drawn = delay(d, u, &mut view);
        let most = longest(d, &mut view);
        Some((drawn, most))
    } else {
        None
    }
}

/// What the tables give, in a marking of no places.
fn kept(alloc: Global, tables: &DelayTables, d: &Dist, u: u64) -> Option<Result<u64, Trap>> {
    let mut view = Marking::new(Vec::new(alloc));
    let sound = match d {
        Dist::Det(_) => true,
        Dist::Geom(p, q) => 1 <= *p && *p <= *q && *q <= 1000,
        _ => false,
    };
    if sound && dist_below(d, 0) {
        Some(tables.delay(d, u, &mut view))
    } else {
        None
    }
}

#[test]
fn values_as_delays(rt: HostRuntime) -> Result<(), Fail> {
    let table = [
        (0, Err(Trap::Delay)),
        (-1, Err(Trap::Delay)),
        (1, Ok(1)),
        (4294967296, Ok(4294967296)),
        (4294967297, Err(Trap::Delay)),
    ];
    for (n, expected) in table {
        let d = Dist::Det(Expr::Number(n));
        assert_eq!(rt; given(rt.alloc(), &d, FIRST), Some((expected, expected)));
    }
    Ok(())
}

#[test]
fn delays_between_bounds(rt: HostRuntime) -> Result<(), Fail> {
    let outside = (Err(Trap::Delay), Err(Trap::Delay));
    let table = [
        (1, 10, FIRST, (Ok(6), Ok(10))),
        (1, 10, SECOND, (Ok(2), Ok(10))),
        (3, 2, FIRST, outside),
        (0, 5, FIRST, outside),
        (1, 4294967297, FIRST, outside),
        (7, 7, u64::MAX, (Ok(7), Ok(7))),
        (1, 4294967296, 0, (Ok(1), Ok(4294967296))),
        (1, 4294967296, u64::MAX, (Ok(4294967296), Ok(4294967296))),
    ];
    for (low, high, u, expected) in table {
        let d = Dist::Uniform(Expr::Number(low), Expr::Number(high));
        assert_eq!(rt; given(rt.alloc(), &d, u), Some(expected));
    }
    Ok(())
}

fn one_by_nothing(alloc: Global) -> Result<Expr, NoMemory> {
    let one = Boxed::new(alloc, Expr::Number(1))?;
    let nothing = Boxed::new(alloc, Expr::Number(0))?;
    Ok(Expr::Binary(Op::Div, one, nothing))
}

#[test]
fn traps_of_bounds_come_before_delay(rt: HostRuntime) -> Result<(), Fail> {
    let d = Dist::Uniform(Expr::Number(0), one_by_nothing(rt.alloc())?);
    let trap = Err(Trap::Arith);
    assert_eq!(rt; given(rt.alloc(), &d, FIRST), Some((trap, trap)));
    Ok(())
}

#[test]
fn geometric_delays(rt: HostRuntime) -> Result<(), Fail> {
    // A third of 2^64 is no whole number: what is left after one tick is rounded down.
    let two_thirds = 12297829382473034410;
    let table = [
        (1, 2, FIRST, 1, 65),
        (1, 2, SECOND, 3, 65),
        (1, 2, 1, 64, 65),
        (7, 7, FIRST, 1, 1),
        (1, 3, two_thirds, 1, 109),
        (1, 3, two_thirds - 1, 2, 109),
        (1, 1000, u64::MAX, 1, 38012),
    ];
    for (p, q, u, drawn, most) in table {
        let got = if 1 <= p && p <= q && q <= 1000 {
            given(rt.alloc(), &Dist::Geom(p, q), u)
        } else {
            None
        };
        assert_eq!(rt; got, Some((Ok(drawn), Ok(most))), "at {p} in {q}");
    }
    Ok(())
}

/// Where the tables find room for a series and where they don't.
#[test]
fn kept_delays(rt: HostRuntime) -> Result<(), Fail> {
    let dists = [
        Dist::Geom(1, 2),
        Dist::Geom(7, 7),
        Dist::Geom(1, 3),
        Dist::Geom(0, 5),
    ];
    let list = [&dists[0], &dists[0], &dists[1], &dists[2], &dists[3]];
    let two_thirds = 12297829382473034410;
    let rows = [
        (1, 2, SECOND, 3),
        (1, 2, 1, 64),
        (1, 2, 0, 65),
        (7, 7, u64::MAX, 1),
        (1, 3, two_thirds - 1, 2),
        (999, 1000, 0, 7),
    ];
    for room in [0, 81, 1000] {
        let tables = DelayTables::within(rt.alloc(), &list, room)?;
        for (p, q, u, expected) in rows {
            assert_eq!(rt;
                kept(rt.alloc(), &tables, &Dist::Geom(p, q), u),
                Some(Ok(expected)),
                "{p} in {q}, room {room}"
            );
        }
    }
    let tables = DelayTables::open(rt.alloc(), &list)?;
    assert_eq!(rt;
        kept(rt.alloc(), &tables, &Dist::Det(Expr::Number(4)), 0),
        Some(Ok(4))
    );
    Ok(())
}

#[test]
fn delays_of_a_table(rt: HostRuntime) -> Result<(), Fail> {
    let alloc = rt.alloc();
    let one = Dist::Table(Items::from_slice(alloc, &[(2, 0), (5, 3)])?);
    let many = Dist::Table(Items::from_slice(alloc, &[(9, 1), (8, 0), (4, 1), (99, 0)])?);
    for u in [0, FIRST, u64::MAX] {
        assert_eq!(rt; given(alloc, &one, u), Some((Ok(5), Ok(5))));
    }
    assert_eq!(rt; given(alloc, &many, HALF - 1), Some((Ok(9), Ok(9))));
    assert_eq!(rt; given(alloc, &many, HALF), Some((Ok(4), Ok(9))));
    Ok(())
}

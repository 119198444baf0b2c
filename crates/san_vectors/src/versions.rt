//! The versions of a place, as readers see them; worked out by hand.

ghost use Rattle.std.specs.Prelude.{◌≡◌};

use san_base::{LeafId, Stamp, Tick};
use san_line::{Line, Version};
use std::test::Fail;

fn version(time: u64, leaf: u32, pos: u64, value: u32) -> Version
    ensures { result ≡ record { time = record { 0 = time }; leaf = record { 0 = leaf }; pos = pos; value = value } }
{
    Version {
        time: Tick(time),
        leaf: LeafId(leaf),
        pos,
        value,
    }
}

fn stamp(time: u64, leaf: u32, pos: u64, all: bool) -> Stamp {
    Stamp {
        time: Tick(time),
        leaf: LeafId(leaf),
        pos,
        all,
    }
}

/// A committed value of 5, and two versions at tick 10.
#[test]
fn line_values(rt: HostRuntime) -> Result<(), Fail> {
    let mut line = Line::open(rt.alloc(), 5);
    line.reserve().ok().ok_or("memory")?;
    line.put(version(10, 2, 1, 9)).ok().ok_or("memory")?;
    line.put(version(10, 1, 3, 7)).ok().ok_or("memory")?;
    let stamps = [
        (stamp(10, 1, 4, false), 7),
        (stamp(10, 2, 1, false), 7),
        (stamp(10, 0, 0, true), 9),
        (stamp(10, 0, 0, false), 5),
        (stamp(9, 3, 0, true), 5),
        (stamp(11, 0, 0, false), 9),
    ];
    for (stamp, value) in stamps {
        assert_eq!(rt; line.at(stamp), value);
    }
    assert_eq!(rt; line.later(LeafId(1), Tick(9)), Some((Tick(10), LeafId(2))));
    assert_eq!(rt; line.later(LeafId(1), Tick(10)), None);
    assert_eq!(rt; line.withdraw(LeafId(2), 0), 1);
    assert_eq!(rt; line.at(stamp(11, 0, 0, false)), 7);
    line.commit(LeafId(1), 3);
    assert_eq!(rt; line.at(stamp(0, 0, 0, false)), 7);
    line.set(4);
    assert_eq!(rt; line.at(stamp(11, 0, 0, true)), 4);
    Ok(())
}

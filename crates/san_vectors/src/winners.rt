//! The least of a few keys, by key and then by place.

use san_winner::Winners;
use std::test::Fail;

/// Five keys, so that three lowest nodes stay empty.
#[test]
fn least_keys(rt: HostRuntime) -> Result<(), Fail> {
    let mut winners = Winners::open(rt.alloc(), 5)?;
    assert_eq!(rt; winners.len(), 5);
    assert_eq!(rt; winners.least(), None);
    let sets = [
        (3, Some(7), Some((7, 3))),
        (1, Some(9), Some((7, 3))),
        (4, Some(7), Some((7, 3))),
        (0, Some(7), Some((7, 0))),
        (2, Some(0), Some((0, 2))),
        (0, None, Some((0, 2))),
        (2, Some(u64::MAX), Some((7, 3))),
        (3, None, Some((7, 4))),
    ];
    for (at, key, least) in sets {
        if winners.len() == 5 {
            winners.set(at, key);
        }
        assert_eq!(rt; winners.least(), least, "after {at}");
    }
    let ranges = [
        (0, 5, Some((7, 4))),
        (0, 4, Some((9, 1))),
        (2, 4, Some((u64::MAX, 2))),
        (3, 4, None),
        (0, 1, None),
        (2, 2, None),
        (5, 5, None),
    ];
    for (lo, hi, least) in ranges {
        if winners.len() == 5 {
            assert_eq!(rt; winners.least_between(lo, hi), least, "from {lo} to {hi}");
        }
    }
    Ok(())
}

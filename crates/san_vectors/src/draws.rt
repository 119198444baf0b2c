//! Draws, against a ChaCha20 that was written for itself after RFC 8439.

use san_draw::{Draws, Streams, pick};
use std::test::Fail;

const FIRST: u64 = 0x903df1a0ade0b876;

const SECOND: u64 = 0x28bd8653e56a5d40;

/// Seed, stream, number and draw; across the border of a block, and for streams and places whose
/// numbers pass 2^32.
const DRAWS: [(u64, u64, u64, u64); 12] = [
    (0, 0, 0, FIRST),
    (0, 0, 1, SECOND),
    (0, 0, 7, 0x8665eeb269b687c3),
    (0, 0, 8, 0x7a385155bee7079f),
    (7, 0, 0, 0x44984265b9e39ef1),
    (7, 1, 0, 0xfc64c257f75b8229),
    (7, 1, 31, 0x5332388b5d81cef8),
    (7, 1, 32, 0xfa367ee74ea3bee2),
    (18446744073709551615, 2, 3, 0xa04cae942cf52500),
    (7, 4294967296, 5, 0x3aa701cb3c9ae2c3),
    (7, 4294967297, 100, 0x75dcad622150763f),
    (123456789, 131071, 1099511627775, 0xc9419a06c88ee317),
];

#[test]
fn draws(rt: HostRuntime) -> Result<(), Fail> {
    for (seed, stream, k, draw) in DRAWS {
        if k < 1 << 40 {
            let mut draws = Draws::new(seed);
            assert_eq!(rt; draws.draw(stream, k), draw);
        }
    }
    let mut streams = Streams::open(rt.alloc(), 7, &[false, true])?;
    assert_eq!(rt; streams.draw(1, 31), 0x5332388b5d81cef8);
    assert_eq!(rt; streams.draw(0, 0), 0x44984265b9e39ef1);
    assert_eq!(rt; streams.draw(1, 32), 0xfa367ee74ea3bee2);
    assert_eq!(rt; streams.draw(1, 0), 0xfc64c257f75b8229);
    Ok(())
}

/// The first draw is about 0.5634 of 2^64, the second about 0.1591.
#[test]
fn picks(rt: HostRuntime) {
    assert_eq!(rt; (pick(FIRST, 10), pick(SECOND, 10)), (5, 1));
}

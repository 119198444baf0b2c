//! Lines of completions and endings in a network of two leaves, written out by hand.

use crate::network::put_and_get;
use san_base::{ActId, Ending, Event, NoMemory, Stop, Tick, Trap};
use san_net::Flat;
use san_report::{ending_line, event_line};
use std::alloc::Global;
use std::test::Fail;

/// A completion's number, tick, activity and case, and its line.
const EVENTS: [(u64, u64, u32, u32, &str); 4] = [
    (0, 0, 0, 0, "0 0 a.a 0\n"),
    (12, 5, 1, 2, "12 5 b.a 2\n"),
    (
        9999999,
        1000000000000,
        2,
        4294967295,
        "9999999 1000000000000 b.b 4294967295\n",
    ),
    (
        18446744073709551615,
        18446744073709551615,
        0,
        1,
        "18446744073709551615 18446744073709551615 a.a 1\n",
    ),
];

/// An ending, whose run had three completions, and its line.
const ENDINGS: [(Ending, &str); 9] = [
    (Ending::End(Tick(0)), "end 0 3\n"),
    (Ending::End(Tick(1000000000000)), "end 1000000000000 3\n"),
    (Ending::Stop(Stop::Unstable(Tick(0))), "stop unstable 0\n"),
    (Ending::Stop(Stop::Events(Tick(9))), "stop events 9\n"),
    (
        Ending::Stop(Stop::Trap(Trap::Arith, Tick(3), ActId(0))),
        "stop trap arith 3 a.a\n",
    ),
    (
        Ending::Stop(Stop::Trap(Trap::Marking, Tick(1), ActId(1))),
        "stop trap marking 1 b.a\n",
    ),
    (
        Ending::Stop(Stop::Trap(Trap::Delay, Tick(20), ActId(2))),
        "stop trap delay 20 b.b\n",
    ),
    (
        Ending::Stop(Stop::Trap(Trap::Weight, Tick(7), ActId(0))),
        "stop trap weight 7 a.a\n",
    ),
    (
        Ending::Stop(Stop::Trap(Trap::Index, Tick(8), ActId(2))),
        "stop trap index 8 b.b\n",
    ),
];

/// The first row with another line.
fn wrong_event(
    alloc: Global,
    flat: &Flat,
    rows: &[(u64, u64, u32, u32, &str)],
) -> Result<Option<usize>, NoMemory> {
    for (row, (n, time, act, case, want)) in rows.iter().enumerate() {
        if *act >= flat.acts() {
            return Ok(Some(row));
        }
        let event = Event {
            time: Tick(*time),
            act: ActId(*act),
            case: *case,
        };
        if event_line(alloc, flat, *n, event)?.as_slice() != want.as_bytes() {
            return Ok(Some(row));
        }
    }
    Ok(None)
}

/// The line of an ending, where its activity is one of the network.
fn line_of(alloc: Global, flat: &Flat, ending: Ending) -> Result<Option<Vec<u8>>, NoMemory> {
    match ending {
        Ending::Stop(Stop::Trap(trap, time, act)) => {
            if act.0 >= flat.acts() {
                return Ok(None);
            }
            let stop = Stop::Trap(trap, time, act);
            Ok(Some(ending_line(alloc, flat, 3, Ending::Stop(stop))?))
        }
        Ending::Stop(Stop::Unstable(time)) => {
            let stop = Stop::Unstable(time);
            Ok(Some(ending_line(alloc, flat, 3, Ending::Stop(stop))?))
        }
        Ending::Stop(Stop::Events(time)) => {
            let stop = Stop::Events(time);
            Ok(Some(ending_line(alloc, flat, 3, Ending::Stop(stop))?))
        }
        Ending::End(horizon) => Ok(Some(ending_line(alloc, flat, 3, Ending::End(horizon))?)),
    }
}

/// The first row with another line.
fn wrong_ending(
    alloc: Global,
    flat: &Flat,
    rows: &[(Ending, &str)],
) -> Result<Option<usize>, NoMemory> {
    for (row, (ending, want)) in rows.iter().enumerate() {
        match line_of(alloc, flat, *ending)? {
            Some(line) if line.as_slice() == want.as_bytes() => {}
            _ => return Ok(Some(row)),
        }
    }
    Ok(None)
}

#[test]
fn lines_of_a_run(rt: HostRuntime) -> Result<(), Fail> {
    let flat = put_and_get(rt.alloc())?;
    assert_eq!(rt; wrong_event(rt.alloc(), &flat, &EVENTS)?, None);
    assert_eq!(rt; wrong_ending(rt.alloc(), &flat, &ENDINGS)?, None);
    Ok(())
}

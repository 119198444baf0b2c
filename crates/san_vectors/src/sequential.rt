//! A run taken whole, and one taken step by step with its markings; worked out by hand.

use crate::network::put_and_get;
use san_base::{ActId, Ending, Event, Limits, NoMemory, Tick};
use san_net::Flat;
use san_seq::{Seq, Stepped};
use std::alloc::Global;
use std::test::Fail;

fn event_of(time: u64, act: u32, case: u32) -> Event {
    Event {
        time: Tick(time),
        act: ActId(act),
        case,
    }
}

/// A run, or none where a limit is out of range.
fn opened(
    alloc: Global,
    flat: &Flat,
    seed: u64,
    horizon: u64,
    burst: u32,
    events: u64,
) -> Result<Option<Seq<'_>>, NoMemory> {
    if horizon > 1000 {
        return Ok(None);
    }
    if burst == 0 || burst > 1000 {
        return Ok(None);
    }
    if events == 0 || events > 1000 {
        return Ok(None);
    }
    let limits = Limits {
        horizon: Tick(horizon),
        burst,
        events,
        window: 16,
        rollbacks: 10000,
    };
    Ok(Some(Seq::open(alloc, flat, seed, limits)?))
}

/// The events from the opening on, and the ending.
#[test]
fn whole_run(rt: HostRuntime) -> Result<(), Fail> {
    let flat = put_and_get(rt.alloc())?;
    let seq = opened(rt.alloc(), &flat, 7, 10, 1000, 1000)?.ok_or("limits")?;
    let trajectory = seq.run_all(rt.alloc())?;
    let events = [event_of(2, 0, 0), event_of(2, 1, 0)];
    assert_eq!(rt; trajectory.events.as_slice(), events.as_slice());
    assert_eq!(rt; trajectory.ending, Ending::End(Tick(10)));
    Ok(())
}

/// The marking after each step; once the run is over, the same step again.
#[test]
fn steps_and_markings(rt: HostRuntime) -> Result<(), Fail> {
    let flat = put_and_get(rt.alloc())?;
    let mut seq = opened(rt.alloc(), &flat, 7, 5, 3, 20)?.ok_or("limits")?;
    assert_eq!(rt; seq.marking(), [0, 1, 0].as_slice());
    let steps = [
        (Stepped::Event(event_of(2, 0, 0)), [1, 0, 0]),
        (Stepped::Event(event_of(2, 1, 0)), [0, 0, 1]),
        (Stepped::End, [0, 0, 1]),
        (Stepped::End, [0, 0, 1]),
    ];
    for (step, marking) in steps {
        assert_eq!(rt; seq.step(), step);
        assert_eq!(rt; seq.marking(), marking.as_slice());
    }
    let rest = seq.run_all(rt.alloc())?;
    assert_eq!(rt; rest.events.len(), 0);
    assert_eq!(rt; rest.ending, Ending::End(Tick(5)));
    Ok(())
}

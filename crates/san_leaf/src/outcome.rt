//! What a piece makes.

ghost use Rattle.std.specs.Prelude.{◌≡◌, ◌≤◌, ◌<◌, All, IfOk, IfSome, map};
ghost use Rattle.std.specs.Option.{option_map};
ghost use Rattle.san_law.specs.Block.{fault_of, more_of};
ghost use Rattle.san_leaf.specs.Outcomes.{IsEventOf, act_in, fault_in};
ghost use Rattle.san_leaf.specs.inner.Turns.{ClosesWithin, close_in};

use crate::block::Close;
use crate::recorder::Impulse;
use crate::state::LeafState;
use san_base::{ActId, Event, MAX_ACTS, NoMemory, PlaceId, Rated, Shared, Tick, Trap};
use std::alloc::Global;

/// An activity that traps, and whether it was already picked to complete.
#[derive(Clone, Copy, Debug, PartialEq, Eq)]
pub struct Fault {
    pub trap: Trap,
    pub act: ActId,
    pub picked: bool,
}

/// What a piece makes: its completions, the shared places that it assigned with their last values,
/// the leaf's state, its terms' values, a fault, and whether it ended for its length alone.
#[derive(Drop)]
pub struct Outcome {
    pub events: Vec<Event>,
    pub writes: Vec<(PlaceId, u32)>,
    pub state: Shared<LeafState>,
    pub impulses: Vec<Impulse>,
    pub rates: Vec<Rated>,
    pub fault: Option<Fault>,
    pub more: bool,
}

/// A completion as an event: its activity's number in the leaf, and its case.
fn event(first: ActId, time: Tick, act: (u32, u32)) -> Event
    requires first { first.0 ≤ MAX_ACTS }
    requires act { act.0 < MAX_ACTS }
    ensures same { act_in first.0 result ≡ act }
    ensures of { IsEventOf first.0 time.0 result }
{
    Event {
        time,
        act: ActId(first.0 + act.0),
        case: act.1,
    }
}

/// Completions as events, in the network's numbers.
pub(crate) fn events(
    alloc: Global,
    first: ActId,
    time: Tick,
    acts: &[(u32, u32)],
) -> Result<Vec<Event>, NoMemory>
    requires first { first.0 ≤ MAX_ACTS }
    requires acts { All (λ e. e.0 < MAX_ACTS) acts.now }
    ensures same { IfOk result (λ v. map (act_in first.0) v.items ≡ acts.now) }
    ensures of { IfOk result (λ v. All (IsEventOf first.0 time.0) v.items) }
{
    let mut events = Vec::with_capacity(alloc, acts.len())?;
    'acts: for act in acts {
        events.push(event(first, time, *act))?;
    }
    Ok(events)
}

/// The fault of a block that ended by a trap.
pub(crate) fn close_fault(first: ActId, close: Close) -> Option<Fault>
    requires first { first.0 ≤ MAX_ACTS }
    requires within { ClosesWithin MAX_ACTS close }
    ensures same { option_map (fault_in first.0) result ≡ fault_of (close_in close) }
    ensures of { IfSome result (λ f. first.0 ≤ f.act.0) }
{
    match close {
        Close::Rests | Close::More => None,
        Close::FailsTest(k, trap) => Some(Fault {
            trap,
            act: ActId(first.0 + k),
            picked: false,
        }),
        Close::FailsDone(k, trap) => Some(Fault {
            trap,
            act: ActId(first.0 + k),
            picked: true,
        }),
    }
}

/// Whether a block ended for its length alone.
pub(crate) fn is_more(close: Close) -> bool
    ensures { result ≡ more_of (close_in close) }
{
    match close {
        Close::More => true,
        Close::Rests | Close::FailsTest(_, _) | Close::FailsDone(_, _) => false,
    }
}

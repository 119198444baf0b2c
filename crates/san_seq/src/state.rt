//! The state of a run, and completions in it within the limits.

ghost use Rattle.std.specs.Option.{option_map};
ghost use Rattle.std.specs.Prelude.{length, slice_index, ℕ, ◌*◌, ◌+◌, ◌<◌, ◌≡◌, ◌≤◌};
ghost use Rattle.san_base.specs.declared.limits.TheConstants.{MAX_COMPLETIONS, MAX_DRAWS};
ghost use Rattle.san_draw.specs.Key.{draw_of};
ghost use Rattle.san_law.specs.Network.{Limits as Bounds};
ghost use Rattle.san_law.specs.Step as law;
ghost use Rattle.san_net.specs.Laid.{acts_of};
ghost use Rattle.san_net.specs.Network.{Network, net_of};
ghost use Rattle.san_net.specs.Tables.{IsActOf};
ghost use Rattle.san_net.specs.Runs.{ending_in, limits_in};
ghost use Rattle.san_seq.specs.Outcomes.{event_or_ending};
ghost use Rattle.san_seq.specs.inner.Rows.{AreRows, row_at};
ghost use Rattle.san_seq.specs.inner.States.{complete_in, instant_in};

use crate::completion::Room;
use crate::rows::Rows;
use san_base::{Ending, Event, LeafId, Limits, Stop, Tick, Trap};
use san_draw::Streams;
use san_net::Flat;
use std::marker::Model;

/// A run's time in ticks, its marking and the one at the last stable point, the rows of its
/// leaves, the burst, the leaf that completed last, and the count of events.
#[derive(Drop)]
pub(crate) struct State {
    pub(crate) time: u64,
    pub(crate) marking: Vec<u32>,
    pub(crate) stable: Vec<u32>,
    pub(crate) rows: Rows,
    /// For the cells of the leaf that completes.
    pub(crate) room: Room,
    pub(crate) burst: u64,
    pub(crate) last: Option<LeafId>,
    pub(crate) count: u64,
}

impl Model for State {
    ghost use Rattle.std.specs.Option.{option_map};
    ghost use Rattle.san_law.specs.State as law;

    ghost Value = { law.State };

    ghost view = { λ s. record { time = s.time; marking = s.marking.items; stable = s.stable.items; rows = s.rows; burst = s.burst; last = option_map (λ leaf. leaf.0) s.last; count = s.count } };
}

/// The ending of a run by an activity that traps at a time.
pub(crate) fn trapped(flat: &Flat, time: u64, leaf: LeafId, act: u32, trap: Trap) -> Ending
    requires { IsActOf flat.now leaf.0 act }
    ensures { result ≡ ending_in flat.now time (law.Trapped leaf.0 act trap) }
{
    Ending::Stop(Stop::Trap(trap, Tick(time), flat.act_of(leaf, act)))
}

/// Completes an activity of a leaf, which gives the burst: its event. A trap leaves the state as it
/// was.
pub(crate) fn complete(
    flat: &Flat,
    streams: &mut Streams,
    leaf: LeafId,
    act: u32,
    burst: u64,
    state: &mut State,
) -> Result<Event, Ending>
    requires act { IsActOf flat.now leaf.0 act }
    requires sized { length state.old.marking ≡ length flat.now.initial }
    requires rows { AreRows flat.now.parts state.old.rows }
    requires streams { 2 * acts_of flat.now.parts ≤ streams.old.streams }
    requires number { slice_index (row_at state.old.rows leaf.0).cases act + 1 < MAX_DRAWS }
    requires count { state.old.count + 1 < MAX_COMPLETIONS }
    ensures answered { (limits : Bounds) → result
        ≡ event_or_ending flat.now (complete_in flat.now (draw_of streams.old.seed) limits
        state.old burst leaf.0 act).0 }
    ensures left { (limits : Bounds) → state.new
        ≡ (complete_in flat.now (draw_of streams.old.seed) limits state.old burst leaf.0 act).1 }
    ensures streams { streams.new ≡ streams.old }
{
    let marking = state.marking.as_mut_slice();
    let case = state
        .rows
        .complete(flat, streams, leaf, act, &mut state.room, marking);
    match case {
        Ok(case) => {
            state.burst = burst;
            state.last = Some(leaf);
            state.count += 1;
            Ok(Event {
                time: Tick(state.time),
                act: flat.act_of(leaf, act),
                case,
            })
        }
        Err(trap) => Err(trapped(flat, state.time, leaf, act, trap)),
    }
}

/// The ending at a time by the event limit, where it leaves no further completion.
fn events_left(limits: &Limits, time: u64, count: u64) -> Option<Ending>
    ensures { (n : Network) → result
        ≡ option_map (ending_in n time) (law.events_left limits.now.events count) }
{
    if count < limits.events {
        None
    } else {
        Some(Ending::Stop(Stop::Events(Tick(time))))
    }
}

/// The ending by the limit that stops a further completion: of the burst first, then of the events.
fn limit_by(limits: &Limits, time: u64, burst: u64, count: u64) -> Option<Ending>
    ensures { (n : Network) → result
        ≡ option_map (ending_in n time) (law.limit_by limits.now.burst limits.now.events burst
        count) }
{
    if burst < limits.burst as u64 {
        events_left(limits, time, count)
    } else {
        Some(Ending::Stop(Stop::Unstable(Tick(time))))
    }
}

/// An instantaneous activity completes within both limits: its event, or how the run ends.
pub(crate) fn complete_instant(
    flat: &Flat,
    streams: &mut Streams,
    limits: &Limits,
    leaf: LeafId,
    act: u32,
    state: &mut State,
) -> Result<Event, Ending>
    requires act { IsActOf flat.now leaf.0 act }
    requires sized { length state.old.marking ≡ length flat.now.initial }
    requires rows { AreRows flat.now.parts state.old.rows }
    requires streams { 2 * acts_of flat.now.parts ≤ streams.old.streams }
    requires number { slice_index (row_at state.old.rows leaf.0).cases act + 1 < MAX_DRAWS }
    requires count { state.old.count + 1 < MAX_COMPLETIONS }
    requires burst { state.old.burst + 1 < MAX_COMPLETIONS }
    ensures answered { result
        ≡ event_or_ending flat.now (instant_in flat.now (draw_of streams.old.seed) (limits_in limits.now)
        state.old leaf.0 act).0 }
    ensures left { state.new
        ≡ (instant_in flat.now (draw_of streams.old.seed) (limits_in limits.now) state.old leaf.0
        act).1 }
    ensures streams { streams.new ≡ streams.old }
{
    match limit_by(limits, state.time, state.burst, state.count) {
        Some(ending) => Err(ending),
        None => {
            let burst = state.burst + 1;
            complete(flat, streams, leaf, act, burst, state)
        }
    }
}

/// An activity whose timer was due completes within the event limit, and the burst begins anew: its
/// event, or how the run ends.
pub(crate) fn complete_timed(
    flat: &Flat,
    streams: &mut Streams,
    limits: &Limits,
    leaf: LeafId,
    act: u32,
    state: &mut State,
) -> Result<Event, Ending>
    requires act { IsActOf flat.now leaf.0 act }
    requires sized { length state.old.marking ≡ length flat.now.initial }
    requires rows { AreRows flat.now.parts state.old.rows }
    requires streams { 2 * acts_of flat.now.parts ≤ streams.old.streams }
    requires number { slice_index (row_at state.old.rows leaf.0).cases act + 1 < MAX_DRAWS }
    requires count { state.old.count + 1 < MAX_COMPLETIONS }
    ensures answered { result
        ≡ event_or_ending flat.now (law.fire (net_of flat.now (draw_of streams.old.seed)
        (limits_in limits.now)) state.old leaf.0 act).0 }
    ensures left { state.new
        ≡ (law.fire (net_of flat.now (draw_of streams.old.seed) (limits_in limits.now)) state.old
        leaf.0 act).1 }
    ensures streams { streams.new ≡ streams.old }
{
    match events_left(limits, state.time, state.count) {
        Some(ending) => Err(ending),
        None => complete(flat, streams, leaf, act, 0, state),
    }
}

//! One step of a run, in place (own rules):
//!
//! 1. the next instantaneous activity completes, within both limits;
//! 2. where there is none, all timers are renewed;
//! 3. then the activity of the timer that is due first completes, within the event limit, or the run
//!    ends at the horizon.

ghost use Rattle.std.specs.Prelude.{◌≡◌, ◌≤◌, ◌<◌, ◌+◌, ◌*◌, ◌^◌, ℕ, length, map, Some, IfOk};
ghost use Rattle.std.specs.Option.{option_map};
ghost use Rattle.san_draw.specs.Key.{draw_of};
ghost use Rattle.san_law.specs.Next as law;
ghost use Rattle.san_law.specs.Network.{Limits as Bounds};
ghost use Rattle.san_law.specs.Net.{Net, least_timer};
ghost use Rattle.san_law.specs.Renewal as law_renewal;
ghost use Rattle.san_law.specs.Renewal.{renewed_from};
ghost use Rattle.san_law.specs.State as law_state;
ghost use Rattle.san_law.specs.Step as law_step;
ghost use Rattle.san_net.specs.Laid.{acts_of};
ghost use Rattle.san_net.specs.Network.{net_of};
ghost use Rattle.san_base.specs.Limits.{IsInRange};
ghost use Rattle.san_base.specs.declared.limits.TheConstants.{MAX_TIME};
ghost use Rattle.san_seq.specs.inner.Dues.{due_in};
ghost use Rattle.san_seq.specs.inner.Known.{AreAsleep, AreFresh, AreIdle, AreQuiet, AreSettled, HasFlags, HaveSame};
ghost use Rattle.san_seq.specs.inner.Nexts.{next_in};
ghost use Rattle.san_net.specs.Runs.{limits_in};
ghost use Rattle.san_seq.specs.inner.Rows.{AreDrawn, AreRows, IsLike, renewal_by, row_at};
ghost use Rattle.san_seq.specs.inner.Running.{IsDrawn, IsRunning, Steps, with_rows};
ghost use Rattle.san_seq.specs.inner.Wakes.{AreWoken};

use crate::next::{Next, next_instant};
use crate::renewal::{Markings, renew_rows};
use crate::rows::Due;
use crate::stale::{Flagged, Stale, settle, touch};
use crate::state::{State, complete_instant, complete_timed, trapped};
use crate::wakes::Wakes;
use san_base::{Ending, Event, LeafId, Limits, MAX_ACTS, Trap};
use san_delay::DelayTables;
use san_draw::Streams;
use san_net::Flat;

/// One step: its event, or the ending. When the run is over, its marking is left.
pub(crate) fn step(
    flat: &Flat,
    tables: &DelayTables,
    wakes: &Wakes,
    streams: &mut Streams,
    limits: &Limits,
    stale: &mut Stale,
    state: &mut State,
) -> Result<Event, Ending>
    requires range { IsInRange limits.now }
    requires running { IsRunning flat.now limits.now state.old }
    requires known { AreIdle flat.now wakes.now stale.old state.old }
    requires streams { 2 * acts_of flat.now.parts ≤ streams.old.streams }
    ensures steps { Steps flat.now result state.new (law_step.step (net_of flat.now (draw_of
        streams.old.seed) (limits_in limits.now)) state.old) }
    ensures running { IfOk result (λ e. IsRunning flat.now limits.now state.new) }
    ensures known { IfOk result (λ e. AreIdle flat.now wakes.now stale.new state.new) }
    ensures streams { streams.new ≡ streams.old }
{
    flat.is_network();
    match next_of(flat, wakes, stale, state) {
        Next::Completes(leaf, act) => {
            let answer = complete_instant(flat, streams, limits, leaf, act, state);
            touch(flat, wakes, leaf, &state.stable, &state.marking, stale);
            answer
        }
        Next::Traps(leaf, act, trap) => Err(trapped(flat, state.time, leaf, act, trap)),
        Next::Stable => at_rest(flat, tables, wakes, streams, limits, stale, state),
    }
}

/// All timers are renewed, and the activity of the one that is due first completes.
fn at_rest(
    flat: &Flat,
    tables: &DelayTables,
    wakes: &Wakes,
    streams: &mut Streams,
    limits: &Limits,
    stale: &mut Stale,
    state: &mut State,
) -> Result<Event, Ending>
    requires range { IsInRange limits.now }
    requires running { IsRunning flat.now limits.now state.old }
    requires known { AreIdle flat.now wakes.now stale.old state.old }
    requires settled { AreSettled flat.now.parts state.old.marking }
    requires streams { 2 * acts_of flat.now.parts ≤ streams.old.streams }
    ensures steps { Steps flat.now result state.new (law_step.at_next (net_of flat.now (draw_of
        streams.old.seed) (limits_in limits.now)) state.old law.Stable) }
    ensures running { IfOk result (λ e. IsRunning flat.now limits.now state.new) }
    ensures known { IfOk result (λ e. AreIdle flat.now wakes.now stale.new state.new) }
    ensures streams { streams.new ≡ streams.old }
{
    flat.is_network();
    match renew(flat, tables, streams, &stale.timers, state) {
        Ok(()) => match first_due(state) {
            Some(due) => at_due(flat, wakes, streams, limits, stale, due, state),
            None => Err(Ending::End(limits.horizon)),
        },
        Err((leaf, act, trap)) => Err(trapped(flat, state.time, leaf, act, trap)),
    }
}

/// The activity of a timer completes where it is due by the horizon, else the run ends there.
fn at_due(
    flat: &Flat,
    wakes: &Wakes,
    streams: &mut Streams,
    limits: &Limits,
    stale: &mut Stale,
    due: Due,
    state: &mut State,
) -> Result<Event, Ending>
    requires range { IsInRange limits.now }
    requires drawn { IsDrawn flat.now limits.now (state.old.count + 1) state.old }
    requires leaf { due.leaf.0 < length state.old.rows }
    requires act { due.act < length (row_at state.old.rows due.leaf.0).timers }
    requires woken { AreWoken flat.now wakes.now }
    requires flags { HasFlags flat.now stale.old }
    requires same { HaveSame stale.old.places state.old.stable state.old.marking }
    requires asleep { AreAsleep flat.now stale.old.awake state.old.marking }
    requires quiet { AreQuiet flat.now.parts state.old.marking state.old.rows }
    requires streams { 2 * acts_of flat.now.parts ≤ streams.old.streams }
    ensures steps { (s : law_state.State) → with_rows state.old.rows s ≡ state.old → Steps flat.now result
        state.new (law_step.at_due (net_of flat.now (draw_of streams.old.seed) (limits_in limits.now))
        s state.old.rows (Some (due_in due))) }
    ensures running { IfOk result (λ e. IsRunning flat.now limits.now state.new) }
    ensures known { IfOk result (λ e. AreIdle flat.now wakes.now stale.new state.new) }
    ensures streams { streams.new ≡ streams.old }
{
    flat.is_network();
    if due.time <= limits.horizon.0 {
        fire(flat, stale, due, state);
        let answer = complete_timed(flat, streams, limits, due.leaf, due.act, state);
        touch(flat, wakes, due.leaf, &state.stable, &state.marking, stale);
        answer
    } else {
        Err(Ending::End(limits.horizon))
    }
}

/// Which instantaneous activity completes next in a state.
pub(crate) fn next_of(flat: &Flat, wakes: &Wakes, stale: &Stale, state: &State) -> Next
    requires known { AreIdle flat.now wakes.now stale.now state.now }
    requires last { (j : ℕ) → state.now.last ≡ Some j → j < length flat.now.parts }
    requires present { length state.now.marking ≡ length flat.now.initial }
    requires stable { length state.now.stable ≡ length flat.now.initial }
    ensures { (draw : ℕ → ℕ → ℕ) (bounds : Bounds) → next_in result
        ≡ law.next_instant (net_of flat.now draw bounds) state.now }
{
    flat.is_network();
    let markings = Markings {
        stable: state.stable.as_slice(),
        present: state.marking.as_slice(),
    };
    next_instant(flat, wakes, state.last, stale, &markings)
}

/// All timers of a state are renewed, or up to the first trap.
fn renew(
    flat: &Flat,
    tables: &DelayTables,
    streams: &mut Streams,
    stale: &Flagged,
    state: &mut State,
) -> Result<(), (LeafId, u32, Trap)>
    requires sized { length state.old.marking ≡ length flat.now.initial }
    requires stable { length state.old.stable ≡ length flat.now.initial }
    requires rows { AreRows flat.now.parts state.old.rows }
    requires streams { 2 * acts_of flat.now.parts ≤ streams.old.streams }
    requires flags { length stale.now ≡ length flat.now.parts }
    requires idle { AreFresh (draw_of streams.old.seed) flat.now.parts stale.now state.old.time
        state.old.stable state.old.marking state.old.rows }
    requires numbers { AreDrawn state.old.count state.old.rows }
    requires count { state.old.count < 2 ^ 30 }
    requires time { state.old.time < MAX_TIME }
    ensures rows { (bounds : Bounds) → renewal_by result state.new.rows
        ≡ renewed_from (net_of flat.now (draw_of streams.old.seed) bounds) state.old 0
        state.old.rows }
    ensures left { state.new ≡ with_rows state.new.rows state.old }
    ensures numbers { AreDrawn (state.old.count + 1) state.new.rows }
    ensures sized { length state.new.rows ≡ length state.old.rows }
    ensures like { (j : ℕ) → IsLike (row_at state.new.rows j) (row_at state.old.rows j) }
    ensures streams { streams.new ≡ streams.old }
{
    let markings = Markings {
        stable: state.stable.as_slice(),
        present: state.marking.as_slice(),
    };
    renew_rows(
        flat,
        tables,
        streams,
        state.time,
        stale,
        &markings,
        &mut state.rows,
    )
}

/// The timer of a state that is due first.
fn first_due(state: &mut State) -> Option<Due>
    requires few { length state.old.rows ≤ MAX_ACTS }
    requires small { (j : ℕ) → length (row_at state.old.rows j).timers ≤ MAX_ACTS }
    ensures due { option_map due_in result
        ≡ law_renewal.least_from 0 (map least_timer state.old.rows) }
    ensures same { state.new ≡ state.old }
{
    state.rows.least()
}

/// A state comes to the time of a timer, without it: its marking is the last stable one, and the burst
/// begins anew. Nothing is stale any more.
fn fire(flat: &Flat, stale: &mut Stale, due: Due, state: &mut State)
    requires leaf { due.leaf.0 < length state.old.rows }
    requires act { due.act < length (row_at state.old.rows due.leaf.0).timers }
    requires small { (j : ℕ) → length (row_at state.old.rows j).timers ≤ MAX_ACTS }
    requires flags { HasFlags flat.now stale.old }
    requires marking { length state.old.marking ≡ length flat.now.initial }
    requires stable { length state.old.stable ≡ length flat.now.initial }
    requires same { HaveSame stale.old.places state.old.stable state.old.marking }
    requires asleep { AreAsleep flat.now stale.old.awake state.old.marking }
    ensures fired { (net : Net) → state.new
        ≡ law_step.fired net state.old state.old.rows (due_in due) }
    ensures flags { HasFlags flat.now stale.new }
    ensures asleep { AreAsleep flat.now stale.new.awake state.old.marking }
{
    state.rows.drop_timer(due.leaf, due.act);
    settle(flat, stale, &state.marking, state.stable.as_mut_slice());
    state.time = due.time;
    state.burst = 0;
}

//! The committed part of a core, and how it takes a piece.

ghost use Rattle.std.specs.Prelude.{◌≡◌, ◌≢◌, ◌≤◌, ◌<◌, ◌+◌, ◌^◌, [], ℕ, All, IfSome, None, Some, length, map, slice_index_or, vec_capacity};
ghost use Rattle.std.specs.Option.{option_map};
ghost use Rattle.san_base.specs.declared.limits.TheConstants.{MAX_ACTS, MAX_IMPULSES};
ghost use Rattle.san_base.specs.declared.piece.Kind.TheVariants.{Refresh};
ghost use Rattle.san_law.specs.Core.{burst_after};
ghost use Rattle.san_law.specs.Network as network;
ghost use Rattle.san_law.specs.Step.{End};
ghost use Rattle.san_leaf.specs.Outcomes.{fault_in, outcome_in};
ghost use Rattle.san_leaf.specs.States.{kind_in};
ghost use Rattle.san_net.specs.Network.{net_of};
ghost use Rattle.san_reward.specs.Running.{advanced, with_impulses};
ghost use Rattle.san_turn.specs.Reflected.{Reflects};
ghost use Rattle.san_core.specs.inner.Admits.{admits, over_in};
ghost use Rattle.san_core.specs.inner.Impulses.{impulses_from};
ghost use Rattle.san_core.specs.inner.Needed.{need_given};
ghost use Rattle.san_core.specs.inner.Stops.{TrapsIn, stopped_by};
ghost use Rattle.san_core.specs.inner.Steps.{counted_in, ended_by, halted, put_in};

use crate::admission::{Admission, Taking, admit, burst_after};
use crate::impulses::count_impulses;
use crate::news::reflect;
use crate::over::{Halt, Over};
use crate::start::Start;
use crate::writing::write_all;
use san_base::{Ending, Kind, Limits, PlaceId, Shared, Tick};
use san_leaf::{Impulse, LeafState, Outcome};
use san_net::Flat;
use san_reward::Tally;
use san_turn::{Need, Order, Taken};
use std::marker::Model;

/// The leaves' states, the values of the shared places, the order of needs, the tally, the burst,
/// the count of all events so far, and the stop, where one has come.
#[derive(Drop)]
pub(crate) struct Committed {
    pub(crate) leaves: Vec<Shared<LeafState>>,
    pub(crate) shared: Vec<u32>,
    pub(crate) order: Order,
    pub(crate) tally: Tally,
    pub(crate) burst: u32,
    pub(crate) count: u64,
    pub(crate) halt: Option<Halt>,
}

impl Model for Committed {
    ghost use Rattle.san_core.specs.Committed.{CommittedValue};
    ghost use Rattle.san_core.specs.inner.Held.{committed_by};
    ghost use Rattle.san_core.specs.inner.Stops.{HaltIsNamed};

    ghost Value = { CommittedValue };

    ghost view = { λ c. committed_by c.leaves.items c.shared.items c.order c.tally c.burst c.count
        c.halt };

    ghost invariant = { λ c. HaltIsNamed c.order.firsts c.halt };
}

/// Counts the present rates up to a piece's time, and then the impulses of its first events.
fn count_on(tally: &mut Tally, time: Tick, impulses: &[Impulse], events: u32)
    requires time { tally.old.time ≤ time.0 }
    requires horizon { time.0 ≤ tally.old.horizon }
    requires rewards { All (λ x. x.reward < length tally.old.spans) (impulses_from 0 events impulses.now) }
    requires few { tally.old.tally.impulses + length (impulses_from 0 events impulses.now) ≤ MAX_IMPULSES }
    ensures { tally.new ≡ with_impulses (advanced tally.old time.0) (impulses_from 0 events impulses.now) }
{
    tally.advance(time);
    count_impulses(tally, impulses, events);
}

impl Committed {
    /// A burst is a number of 32 bits.
    pub(crate) fn is_bounded(&self)
        ensures { self.now.core.burst < 2 ^ 32 }
    {
        let _ = self.burst();
    }

    /// When and how it stopped, where it has.
    pub(crate) fn stopped(&self) -> Option<Ending>
        ensures { result ≡ stopped_by self.now.firsts self.now.core.order.time self.now.core.stop }
    {
        match &self.halt {
            Some(halt) => Some(halt.ending()),
            None => None,
        }
    }

    /// No stop is the end at the horizon.
    pub(crate) fn has_a_stop_before_the_end(&self)
        ensures { self.now.core.stop ≢ Some End }
    {
        let _ = &self.halt;
    }

    /// What the order needs next; nothing where the core has stopped.
    pub(crate) fn need(&self) -> Need
        ensures { result ≡ need_given self.now.firsts self.now.horizon self.now.core.order
            self.now.core.stop }
    {
        match self.halt {
            Some(_) => Need::End,
            None => self.order.need(),
        }
    }

    /// The time of the order, where the core goes on.
    pub(crate) fn time(&self) -> Tick
        ensures { self.now.core.stop ≡ None → result.0 ≡ self.now.core.order.time }
    {
        self.order.time()
    }

    /// The order, where the core goes on.
    pub(crate) fn order(&self) -> &Order
        ensures { self.now.core.stop ≡ None → result.now.order ≡ self.now.core.order }
    {
        &self.order
    }

    /// The start from which a core goes on that hasn't stopped.
    pub(crate) fn into_start(self) -> Start
        requires { self.core.stop ≡ None }
        ensures { result ≡ self }
    {
        Start {
            states: self.leaves,
            shared: self.shared,
            order: self.order,
            tally: self.tally,
            burst: self.burst,
            events: self.count,
        }
    }

    /// The tally alone.
    pub(crate) fn into_tally(self) -> Tally
        ensures { result ≡ self.running }
    {
        self.tally
    }

    /// The instantaneous completions since the last timed one.
    fn burst(&self) -> u32
        ensures { result ≡ self.now.core.burst }
    {
        self.burst
    }

    /// What the limits let through of a piece's completions.
    pub(crate) fn admit(&self, limits: &Limits, taking: Taking, outcome: &Outcome) -> Admission
        requires few { length outcome.now.events.items ≤ 64 }
        requires count { self.now.core.count + 64 < 2 ^ 64 }
        requires fault { IfSome outcome.now.fault (λ f. taking.first.0 ≤ f.act.0) }
        ensures within { result.passed ≤ length outcome.now.events.items }
        ensures is { (result.passed, option_map over_in result.over)
            ≡ admits limits.now.burst limits.now.events taking.leaf.0 self.now.core.burst
            self.now.core.count (kind_in taking.first.0 taking.kind)
            (option_map (fault_in taking.first.0) outcome.now.fault)
            (length outcome.now.events.items) }
        ensures of { IfSome result.over (TrapsIn taking.leaf.0 taking.first.0) }
    {
        let completions = outcome.events.len() as u32;
        admit(
            limits,
            taking,
            self.burst,
            self.count,
            completions,
            outcome.fault,
        )
    }

    /// Counts what was let through: the tally comes to the piece's time, and a renewal sets rates.
    fn count(&mut self, taking: Taking, admission: Admission, outcome: &Outcome)
        requires count { self.old.core.count + admission.passed < 2 ^ 64 }
        requires burst { burst_after (kind_in 0 taking.kind) self.old.core.burst admission.passed
            < 2 ^ 32 }
        requires time { self.old.running.time ≤ taking.time.0 }
        requires horizon { taking.time.0 ≤ self.old.running.horizon }
        requires rewards { All (λ x. x.reward < length self.old.running.spans)
            (impulses_from 0 admission.passed outcome.now.impulses.items) }
        requires few { self.old.running.tally.impulses + length (impulses_from 0 admission.passed
            outcome.now.impulses.items) ≤ MAX_IMPULSES }
        requires leaf { taking.leaf.0 < length self.old.running.terms }
        requires rates { admission.over ≡ None → taking.kind ≡ Refresh
            → length outcome.now.rates.items ≡ length (slice_index_or self.old.running.terms
            taking.leaf.0 []) }
        ensures { self.new ≡ counted_in self.old taking admission outcome.now }
    {
        match (admission.over, taking.kind) {
            (None, Kind::Refresh) => self.tally.rate_leaf(taking.leaf, &outcome.rates),
            _ => count_on(
                &mut self.tally,
                taking.time,
                &outcome.impulses,
                admission.passed,
            ),
        }
        self.burst = burst_after(taking.kind, self.burst, admission.passed);
        self.count += u64::from(admission.passed);
    }

    /// Puts the piece's state, values and order in the place of what was there; what it wrote.
    fn put(
        &mut self,
        flat: &Flat,
        taking: Taking,
        outcome: Outcome,
        news: &Taken,
    ) -> Vec<(PlaceId, u32)>
        requires going { self.old.core.stop ≡ None }
        requires order { self.old.firsts ≡ map (λ p. p.first.0) flat.now.parts }
        requires leaf { taking.leaf.0 < length flat.now.parts }
        requires leaves { length self.old.core.leaves ≡ length flat.now.parts }
        requires first { slice_index_or self.old.firsts taking.leaf.0 0 ≡ taking.first.0 }
        requires places { All (λ w. w.0.0 < length self.old.core.shared) outcome.writes.items }
        requires written { All (λ w. w.0.0 < length flat.now.initial) outcome.writes.items }
        requires reflected { Reflects taking.first.0 (outcome_in taking.first.0 outcome) news.now }
        requires kind { news.now.kind ≡ taking.kind }
        requires time { news.now.time ≡ taking.time }
        ensures taken { (draw : ℕ → ℕ → ℕ) (limits : network.Limits) → self.new
            ≡ put_in (net_of flat.now draw limits) self.old taking (outcome_in taking.first.0
            outcome) }
        ensures written { result.items ≡ outcome.writes.items }
    {
        self.order.took(flat, taking.leaf, news);
        write_all(&outcome.writes, &mut self.shared);
        let Outcome { writes, state, .. } = outcome;
        self.leaves[taking.leaf.0 as usize] = state;
        writes
    }

    /// Stops at the piece's time.
    fn halt(&mut self, taking: Taking, over: Over)
        requires first { slice_index_or self.old.firsts taking.leaf.0 0 ≡ taking.first.0 }
        requires of { TrapsIn taking.leaf.0 taking.first.0 over }
        ensures { self.new ≡ halted self.old taking.time.0 (over_in over) }
    {
        self.halt = Some(Halt {
            time: taking.time,
            over,
        });
    }

    /// Takes what was let through, and then stops, or takes what the piece made; what it wrote.
    pub(crate) fn take(
        &mut self,
        flat: &Flat,
        taking: Taking,
        admission: Admission,
        outcome: Outcome,
        news: &mut Taken,
    ) -> Vec<(PlaceId, u32)>
        requires count { self.old.core.count + admission.passed < 2 ^ 64 }
        requires burst { burst_after (kind_in 0 taking.kind) self.old.core.burst admission.passed
            < 2 ^ 32 }
        requires early { self.old.running.time ≤ taking.time.0 }
        requires horizon { taking.time.0 ≤ self.old.running.horizon }
        requires rewards { All (λ x. x.reward < length self.old.running.spans)
            (impulses_from 0 admission.passed outcome.impulses.items) }
        requires few { self.old.running.tally.impulses + length (impulses_from 0 admission.passed
            outcome.impulses.items) ≤ MAX_IMPULSES }
        requires rates { admission.over ≡ None → taking.kind ≡ Refresh
            → length outcome.rates.items ≡ length (slice_index_or self.old.running.terms
            taking.leaf.0 []) }
        requires going { self.old.core.stop ≡ None }
        requires order { self.old.firsts ≡ map (λ p. p.first.0) flat.now.parts }
        requires leaves { length self.old.core.leaves ≡ length flat.now.parts }
        requires terms { length self.old.running.terms ≡ length flat.now.parts }
        requires written { All (λ w. w.0.0 < length flat.now.initial) outcome.writes.items }
        requires leaf { taking.leaf.0 < length flat.now.parts }
        requires first { slice_index_or self.old.firsts taking.leaf.0 0 ≡ taking.first.0 }
        requires numbers { taking.first.0 ≤ MAX_ACTS }
        requires row { length outcome.state.row.timers ≤ MAX_ACTS }
        requires of { IfSome admission.over (TrapsIn taking.leaf.0 taking.first.0) }
        requires places { All (λ w. w.0.0 < length self.old.core.shared) outcome.writes.items }
        requires writes { length outcome.writes.items ≤ vec_capacity news.old.written }
        ensures taken { (draw : ℕ → ℕ → ℕ) (limits : network.Limits) → self.new
            ≡ ended_by (net_of flat.now draw limits) (counted_in self.old taking admission outcome)
            taking (outcome_in taking.first.0 outcome) admission.over }
        ensures written { result.items ≡ outcome.writes.items }
        ensures room { vec_capacity news.old.written ≤ vec_capacity news.new.written }
    {
        reflect(news, taking, &outcome);
        self.count(taking, admission, &outcome);
        match admission.over {
            Some(over) => {
                self.halt(taking, over);
                let Outcome { writes, .. } = outcome;
                writes
            }
            None => self.put(flat, taking, outcome, news),
        }
    }
}

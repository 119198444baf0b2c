//! The tally of a run's rewards.

ghost use Rattle.san_base.specs.declared.limits.TheConstants.{MAX_HORIZON, MAX_IMPULSES};
ghost use Rattle.std.specs.Prelude.{◌≡◌, ◌↔◌, ◌<◌, ◌≤◌, ◌^◌, [], ℕ, IfOk, IsTrue, length, map, slice_index_or};
ghost use Rattle.san_law.specs.Tally.{tally_worth};
ghost use Rattle.san_reward.specs.Running.{advanced, net_in, opened, with_impulse, with_rate};
ghost use Rattle.san_base.specs.Rated.{term_value};
ghost use Rattle.san_reward.specs.Worth.{worth_of};

use crate::bounds::term_value;
use crate::copy::{copy_list, copy_lists};
use crate::leaves::{add, put_rate, replace, reward_of};
use crate::present::{Present, accrue, count_on, counted, end, overlap};
use crate::same::{same_lists, same_spans};
use crate::worth::{Worth, worth_by};
use crate::zeros::{no_presents, no_sums, rates_table, spans_of, terms_table};
use san_base::{LeafId, NoMemory, Rated, Tick, all_same};
use san_net::{Flat, Span};
use std::alloc::Global;
use std::marker::Model;

/// The running sums of a run's rewards up to the present time.
#[derive(Debug, Drop)]
pub struct Tally {
    horizon: Tick,
    time: Tick,
    impulses: u64,
    spans: Vec<Span>,
    terms: Vec<Vec<u32>>,
    rates: Vec<Vec<Option<i64>>>,
    present: Vec<Present>,
    sums: Vec<Option<i128>>,
}

impl Model for Tally {
    ghost use Rattle.std.specs.Prelude.{map};
    ghost use Rattle.san_net.specs.Network.{span_in};
    ghost use Rattle.san_reward.specs.inner.Counted.{HasSums};
    ghost use Rattle.san_reward.specs.Running.{Running, running_of};

    ghost Value = { Running };

    ghost view = { λ t. running_of t.horizon.0 t.time.0 t.impulses t.spans.items
        (map (λ v. v.items) t.terms.items) (map (λ v. v.items) t.rates.items) t.sums.items };

    ghost invariant = { λ t. HasSums (running_of t.horizon.0 t.time.0 t.impulses t.spans.items
        (map (λ v. v.items) t.terms.items) (map (λ v. v.items) t.rates.items) t.sums.items)
        t.present.items };
}

impl Tally {
    /// A tally at time 0, where each rate is 0 until it is set.
    pub fn open(alloc: Global, flat: &Flat, horizon: Tick) -> Result<Tally, NoMemory>
        requires { horizon.0 ≤ MAX_HORIZON }
        ensures { IfOk result (λ t. t ≡ opened flat.now horizon.0) }
    {
        flat.is_network();
        let rewards = flat.rewards();
        let spans = spans_of(alloc, rewards)?;
        let terms = terms_table(alloc, flat)?;
        let rates = rates_table(alloc, flat)?;
        let present = no_presents(alloc, rewards.len())?;
        let sums = no_sums(alloc, rewards.len())?;
        Ok(Tally {
            horizon,
            time: Tick(0),
            impulses: 0,
            spans,
            terms,
            rates,
            present,
            sums,
        })
    }

    /// An equal tally.
    pub fn copy(&self, alloc: Global) -> Result<Tally, NoMemory>
        ensures { IfOk result (λ t. t ≡ self.now) }
    {
        let spans = copy_list(alloc, &self.spans)?;
        let terms = copy_lists(alloc, &self.terms)?;
        let rates = copy_lists(alloc, &self.rates)?;
        let present = copy_list(alloc, &self.present)?;
        let sums = copy_list(alloc, &self.sums)?;
        Ok(Tally {
            horizon: self.horizon,
            time: self.time,
            impulses: self.impulses,
            spans,
            terms,
            rates,
            present,
            sums,
        })
    }

    /// Whether two tallies are equal. An interval of one tick is that tick.
    pub fn same(&self, other: &Tally) -> bool
        ensures { IsTrue result ↔ (self.now ≡ other.now) }
    {
        self.horizon == other.horizon
            && self.time == other.time
            && self.impulses == other.impulses
            && same_spans(&self.spans, &other.spans)
            && same_lists(&self.terms, &other.terms)
            && same_lists(&self.rates, &other.rates)
            && all_same(&self.sums, &other.sums)
    }

    /// Counts the present rates for the ticks from the present time to before a time, which is the
    /// present time from then on.
    pub fn advance(&mut self, to: Tick)
        requires time { self.old.time ≤ to.0 }
        requires horizon { to.0 ≤ self.old.horizon }
        ensures { self.new ≡ advanced self.old to.0 }
    {
        let from = self.time;
        self.time = to;
        count_on(&mut self.sums, &self.present, &self.spans, from.0, to.0);
    }

    /// How many rate terms a leaf has.
    pub fn terms(&self, leaf: LeafId) -> usize
        requires { leaf.0 < length self.now.terms }
        ensures { result ≡ length (slice_index_or self.now.terms leaf.0 []) }
    {
        self.terms[leaf.0 as usize].len()
    }

    /// A tally has a rate for each term of each leaf.
    pub fn has_a_rate_for_each_term(&self)
        ensures { map length self.now.tally.rates ≡ map length self.now.terms }
    {
        let _ = &self.horizon;
    }

    /// Sets the rate of a leaf's term from the present time on.
    pub fn rate(&mut self, leaf: LeafId, term: u32, rated: Rated)
        requires leaf { leaf.0 < length self.old.terms }
        requires term { term < length (slice_index_or self.old.terms leaf.0 []) }
        ensures { self.new ≡ with_rate self.old leaf.0 term (term_value rated) }
    {
        self.set(leaf, term as usize, rated);
    }

    /// The same for any number of a term.
    pub(crate) fn set(&mut self, leaf: LeafId, term: usize, rated: Rated)
        requires leaf { leaf.0 < length self.old.terms }
        requires term { term < length (slice_index_or self.old.terms leaf.0 []) }
        ensures { self.new ≡ with_rate self.old leaf.0 term (term_value rated) }
    {
        let rate = term_value(rated);
        let reward = reward_of(&self.terms, leaf.0, term);
        let old = put_rate(&mut self.rates, leaf.0, term, rate);
        replace(&mut self.present, reward, old, rate);
    }

    /// Counts an impulse at the present time.
    pub fn impulse(&mut self, reward: u32, rated: Rated)
        requires reward { reward < length self.old.spans }
        requires few { self.old.tally.impulses < MAX_IMPULSES }
        ensures { self.new ≡ with_impulse self.old reward (term_value rated) }
    {
        self.impulses += 1;
        let added = counted(self.spans[reward as usize], self.time.0, term_value(rated));
        add(&mut self.sums, reward, added);
    }

    /// A reward's worth with the present rates going on to the end of the horizon's tick.
    pub fn value(&self, reward: u32) -> Worth
        requires { reward < length self.now.spans }
        ensures { result
            ≡ worth_of (tally_worth (net_in self.now) self.now.tally self.now.time reward) }
    {
        let at = reward as usize;
        let span = self.spans[at];
        if end(span) > self.horizon.0 + 1 {
            return Worth::Beyond;
        }
        let ticks = overlap(span, self.time.0, self.horizon.0 + 1);
        worth_by(span, accrue(self.sums[at], self.present[at], ticks))
    }
}

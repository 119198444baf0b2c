//! What is kept of a run's rewards between its events.

ghost use Rattle.std.specs.Prelude.{◌≡◌, ◌+◌, ◌<◌, ◌≤◌, ◌^◌, length, IfOk};
ghost use Rattle.san_base.specs.declared.limits.TheConstants.{MAX_HORIZON, MAX_IMPULSES};
ghost use Rattle.san_net.specs.Laid.{acts_of};
ghost use Rattle.san_plain.specs.inner.Accounts.{Reaches, impulses_of, opened_account, with_event};

use crate::impulses::count_impulses;
use crate::rated::RatedLeaves;
use crate::rates::update_rates;
use san_base::{Event, NoMemory, Tick};
use san_net::Flat;
use san_reward::Tally;
use std::alloc::Global;
use std::marker::Model;

/// What is kept of a run's rewards between its events.
#[derive(Drop)]
pub(crate) struct RewardAccount<'a> {
    flat: &'a Flat,
    /// The leaves whose rates hang on each place.
    rated: RatedLeaves,
    tally: Tally,
    /// The marking that the tally's rates are of.
    marking: Vec<u32>,
}

impl<'a> Model for RewardAccount<'a> {
    ghost use Rattle.san_net.specs.contracts.part.Part as of_part;
    ghost use Rattle.san_plain.specs.inner.Accounts.{RewardAccount, IsAccount};
    ghost use Rattle.san_plain.specs.inner.Rated.{ListsRated};
    ghost use Rattle.std.specs.Coded.{codes};

    ghost Value = { RewardAccount };

    ghost coded = { Prim.hlevel (codes, of_part.the_row.coded) };

    ghost view = { λ a. record { network = a.flat.now; running = a.tally; marking = a.marking.items } };

    ghost invariant = { λ a. IsAccount (record { network = a.flat.now; running = a.tally; marking = a.marking.items }) × ListsRated a.flat.now a.rated };
}

impl<'a> RewardAccount<'a> {
    /// Before the first event.
    pub(crate) fn open(
        alloc: Global,
        flat: &'a Flat,
        horizon: Tick,
    ) -> Result<RewardAccount<'a>, NoMemory>
        requires { horizon.0 ≤ MAX_HORIZON }
        ensures { IfOk result (λ a. a ≡ opened_account flat.now horizon.0) }
    {
        let rated = RatedLeaves::open(alloc, flat)?;
        let mut tally = Tally::open(alloc, flat, horizon)?;
        let marking = flat.initial_marking(alloc)?;
        tally.rate_all(flat, &marking);
        Ok(RewardAccount {
            flat,
            rated,
            tally,
            marking,
        })
    }

    /// Counts an event that reached a marking. Rates are evaluated for its leaf, and for the leaves
    /// alone whose terms name a place that has another value.
    pub(crate) fn count(&mut self, event: Event, marking: &[u32])
        requires act { event.act.0 < acts_of self.old.network.parts }
        requires time { self.old.running.time ≤ event.time.0 }
        requires horizon { event.time.0 ≤ self.old.running.horizon }
        requires few { self.old.running.tally.impulses + length (impulses_of self.old.network
            event.act.0 marking.now) ≤ MAX_IMPULSES }
        requires sized { length marking.now ≡ length self.old.network.initial }
        requires reaches { Reaches self.old.network event.act.0 self.old.marking marking.now }
        ensures { self.new ≡ with_event self.old event marking.now }
    {
        self.tally.advance(event.time);
        let leaf = self.flat.leaf_of(event.act);
        update_rates(
            &mut self.tally,
            &mut self.marking,
            self.flat,
            &self.rated,
            leaf,
            marking,
        );
        count_impulses(&mut self.tally, self.flat, leaf, event.act, marking);
    }

    /// The running sums of the rewards.
    pub(crate) fn tally(&self) -> &Tally
        ensures { result.now ≡ self.now.running }
    {
        &self.tally
    }
}

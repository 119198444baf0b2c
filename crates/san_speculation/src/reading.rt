//! What a core tells of itself.

ghost use Rattle.std.specs.Prelude.{◌≡◌, ◌≤◌, ◌+◌, ◌*◌, ◌↔◌, IsTrue, length, map, suc};
ghost use Rattle.san_base.specs.declared.limits.TheConstants.{MAX_TOKENS};
ghost use Rattle.san_book.specs.Lines.{seen_at};
ghost use Rattle.san_book.specs.Nets.{or_zero};
ghost use Rattle.san_book.specs.declared.limits.TheConstants.{MAX_JOURNAL};
ghost use Rattle.san_core.specs.Machines.{FollowsRun, core_in, net_in};
ghost use Rattle.san_core.specs.Nets.{outcome_in};
ghost use Rattle.san_law.specs.Pieces.{outcome_of_core};
ghost use Rattle.san_speculation.specs.Speculating.{IsReplayed, KeepsTheLaw, step_in};

use crate::speculation::Core;
use crate::step::Step;
use san_base::{Ending, Event, Limits, PlaceId, Stamp};
use san_core::Start;
use san_net::Flat;
use san_reward::Tally;

impl Core {
    /// The steps of a core lead from its opening to it, and so its book is in order and what it has
    /// committed, which is its machine's, follows the run.
    pub fn keeps_the_law(&self)
        ensures replayed { IsReplayed self.now }
        ensures machine { FollowsRun self.now.machine }
        ensures committed { (self.now.book.held ≡ core_in self.now.machine)
            × (self.now.book.taken ≡ self.now.machine.taken) }
        ensures law { (r : IsReplayed self.now) → KeepsTheLaw self.now.machine.network
            self.now.machine.seed self.now.machine.limits self.now.machine.start r.workers
            self.now.book }
    {
        self.machine.follows();
        self.machine.network().is_network();
    }

    /// The value of a shared place at a stamp: that of the last version that the stamp sees, or else
    /// the committed one, and a number of tokens. Any other place reads as 0.
    pub fn read(&self, place: PlaceId, stamp: Stamp) -> u32
        ensures value { result ≡ or_zero (seen_at self.now.book.lines stamp place.0) }
        ensures small { result ≤ MAX_TOKENS }
    {
        self.keeps_the_law();
        self.machine.network().is_network();
        self.ahead.read(place, stamp)
    }

    /// How many work ahead, beside the caller.
    pub fn workers(&self) -> u32
        ensures { suc result ≡ length self.now.book.claims }
    {
        self.keeps_the_law();
        self.claims.len() as u32 - 1
    }

    /// The committed events since the start.
    pub fn committed(&self) -> &[Event]
        ensures { result.now ≡ self.now.machine.events }
    {
        self.machine.committed()
    }

    /// When and how the run ended; none while it goes on.
    pub fn outcome(&self) -> Option<Ending>
        ensures { result ≡ outcome_in self.now.machine.network (outcome_of_core (net_in
            self.now.machine) (core_in self.now.machine)) }
    {
        self.machine.outcome()
    }

    /// The tally up to the time of the last committed piece.
    pub fn tally(&self) -> &Tally
        ensures { result.now ≡ self.now.machine.held.running }
    {
        self.machine.tally()
    }

    /// The steps so far, at most 1,400,000.
    pub fn journal(&self) -> &[Step]
        ensures steps { map step_in result.now ≡ self.now.book.journal }
        ensures few { length result.now ≤ MAX_JOURNAL }
    {
        self.keeps_the_law();
        self.machine.network().is_network();
        self.journal.as_slice()
    }

    /// How often pieces were thrown away: at most the limit, and beyond it once for each piece that
    /// may stand in a chain or be claimed.
    pub fn rollbacks(&self) -> u64
        ensures count { result ≡ self.now.book.rollbacks }
        ensures few { result ≤ self.now.machine.limits.rollbacks + (length
            self.now.machine.network.parts * self.now.machine.limits.window + length
            self.now.book.claims) }
    {
        self.keeps_the_law();
        self.machine.network().is_network();
        self.rollbacks
    }

    /// Whether it is a core of the run of a network with a seed and limits, from this start on.
    pub fn is_of(&self, flat: &Flat, seed: u64, limits: &Limits, start: &Start) -> bool
        ensures { IsTrue result ↔ ((self.now.machine.network ≡ flat.now)
            × (self.now.machine.seed ≡ seed) × (self.now.machine.limits ≡ limits.now)
            × (self.now.machine.start ≡ start.now)) }
    {
        self.machine.is_of(flat, seed, limits, start)
    }
}

//! Setting the rates of a leaf, and of all leaves.

ghost use Rattle.std.specs.Prelude.{◌≡◌, ◌<◌, [], ℕ, All, IsTrue, length, map, slice_index_or};
ghost use Rattle.san_expr.specs.Below.{places_below};
ghost use Rattle.san_law.specs.Lawful.{AllBelow};
ghost use Rattle.san_law.specs.Network.{Limits};
ghost use Rattle.san_law.specs.Reward.{rates_from};
ghost use Rattle.san_net.specs.Laid.{places_of};
ghost use Rattle.san_net.specs.Network.{net_of};
ghost use Rattle.san_base.specs.Rated.{term_value};
ghost use Rattle.san_reward.specs.Running.{rates_in, rates_of, terms_in, with_all_rates, with_leaf_rates};

use crate::cells::rate_in;
use crate::tally::Tally;
use san_base::{LeafId, Rated};
use san_net::{Flat, Part};

impl Tally {
    /// Sets all rates of a leaf from the present time on.
    pub fn rate_leaf(&mut self, leaf: LeafId, rates: &[Rated])
        requires leaf { leaf.0 < length self.old.terms }
        requires terms { length rates.now ≡ length (slice_index_or self.old.terms leaf.0 []) }
        ensures { self.new ≡ with_leaf_rates self.old leaf.0 (map term_value rates.now) }
    {
        self.has_a_rate_for_each_term();
        'terms: for (at, rated) in rates.iter().enumerate() {
            self.set(leaf, at, *rated);
        }
    }

    /// Sets the rates of a leaf to what its terms are in a marking, from the present time on.
    fn rate_part(&mut self, leaf: LeafId, part: &Part, marking: &[u32])
        requires leaf { leaf.0 < length self.old.terms }
        requires terms { slice_index_or self.old.terms leaf.0 [] ≡ terms_in part.now }
        requires places { All (λ t. IsTrue (places_below t.expr (length part.now.slots)))
            part.now.atomic.rates }
        requires over { AllBelow (places_of part.now) (length marking.now) }
        ensures { self.new ≡ with_leaf_rates self.old leaf.0 (rates_of marking.now part.now) }
    {
        self.has_a_rate_for_each_term();
        let slots = part.slots.as_slice();
        'terms: for (at, term) in part.atomic.get().rates.as_slice().iter().enumerate() {
            let rated = rate_in(term, slots, marking);
            self.set(leaf, at, rated);
        }
    }

    /// The same of a network's leaf, by the marking of the whole network.
    pub fn rate_of_leaf(&mut self, flat: &Flat, leaf: LeafId, marking: &[u32])
        requires network { self.old.terms ≡ map terms_in flat.now.parts }
        requires leaf { leaf.0 < length flat.now.parts }
        requires marking { length marking.now ≡ length flat.now.initial }
        ensures { self.new ≡ with_leaf_rates self.old leaf.0
            (slice_index_or (rates_in flat.now marking.now) leaf.0 []) }
    {
        flat.is_network();
        self.rate_part(leaf, flat.part(leaf).get(), marking);
    }

    /// Sets all rates to what the network's terms are in a marking, from the present time on.
    pub fn rate_all(&mut self, flat: &Flat, marking: &[u32])
        requires network { self.old.terms ≡ map terms_in flat.now.parts }
        requires marking { length marking.now ≡ length flat.now.initial }
        ensures rates { self.new ≡ with_all_rates self.old (rates_in flat.now marking.now) }
        ensures law { (draw : ℕ → ℕ → ℕ) (limits : Limits) → self.new.tally.rates
            ≡ rates_from (net_of flat.now draw limits) 0 (net_of flat.now draw limits).parts marking.now }
    {
        self.has_a_rate_for_each_term();
        'leaves: for leaf in 0..flat.leaves() {
            self.rate_of_leaf(flat, LeafId(leaf), marking);
        }
    }
}

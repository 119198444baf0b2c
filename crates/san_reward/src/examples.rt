//! Worked rewards, by computation.

ghost use Rattle.std.specs.Prelude.{◌≡◌, None, Some, pos};
ghost use Rattle.san_law.specs.Reward.{Beyond, Faulted, Mean, Sum};
ghost use Rattle.san_reward.specs.Examples.{counting_to, three_ticks, two_ticks, with_rates, worth_at};

/// Completions at 3, 6 and 9: a sum with impulses, a mean, one tick, an interval beyond the horizon.
#[tactic(auto, using(crate::proofs::Computed::sum_and_impulses, crate::proofs::Computed::mean_of_ten, crate::proofs::Computed::one_tick, crate::proofs::Computed::beyond, crate::proofs::Computed::one_tick_within))]
pub fn three_rewards()
    ensures sum_and_impulses { worth_at (three_ticks (counting_to 10)) 0 ≡ Sum (pos 27) }
    ensures mean_of_ten { worth_at (three_ticks (counting_to 10)) 1 ≡ Mean (pos 27) 10 }
    ensures one_tick { worth_at (three_ticks (counting_to 10)) 2 ≡ Sum (pos 2) }
    ensures beyond { worth_at (two_ticks (counting_to 8)) 0 ≡ Beyond }
    ensures one_tick_within { worth_at (two_ticks (counting_to 8)) 2 ≡ Sum (pos 2) }
{}

/// A rate that is a fault at the first ticks spoils its own reward alone, and not where the interval
/// is beyond the horizon.
#[tactic(auto, using(crate::proofs::Computed::faulted, crate::proofs::Computed::others_stay, crate::proofs::Computed::beyond_before_fault))]
pub fn a_fault_in_a_reward()
    ensures faulted { worth_at (three_ticks (with_rates (counting_to 10) None (Some (pos 0)))) 0
        ≡ Faulted }
    ensures others_stay { worth_at (three_ticks (with_rates (counting_to 10) None (Some (pos 0)))) 1
        ≡ Mean (pos 27) 10 }
    ensures beyond { worth_at (two_ticks (with_rates (counting_to 8) None (Some (pos 0)))) 0
        ≡ Beyond }
{}

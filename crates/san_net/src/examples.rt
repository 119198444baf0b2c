//! Worked examples, computed by the definitions.

ghost use Rattle.std.specs.Prelude.{◌≡◌, pos, negsuc, nat_eq, Some, None, [], ◌∷◌};
ghost use Rattle.san_law.specs.Activity as leaf;
ghost use Rattle.san_law.specs.Examples.{event_at, ran, run_of, tick_at, worth_of};
ghost use Rattle.san_law.specs.Reward.{Beyond, Mean, Sum};
ghost use Rattle.san_law.specs.Net as net;
ghost use Rattle.san_law.specs.Step.{End};
ghost use Rattle.san_net.specs.Examples.{counting_to, four_activities, getter, held_timer, leaf_id, net_to_five, put_and_get, renewed_putter, renewed_reacting, row_with, taking, timer};
ghost use Rattle.san_net.specs.Instants.{instants_of};
ghost use Rattle.san_net.specs.Laid.{IsNetwork, all_places};
ghost use Rattle.san_net.specs.Leaf.{enabled_in, first_in};
ghost use Rattle.san_net.specs.Numbering.{ordered, repeated};
ghost use Rattle.san_base.specs.Rated.{in_bounds};
ghost use Rattle.san_net.specs.Tables.{importers_of, leaves_of_acts};

/// Two leaves that share a place are a network.
#[tactic(auto, using(crate::proofs::Computed::is_network, crate::proofs::Computed::places, crate::proofs::Computed::shared_places, crate::proofs::Computed::numbered, crate::proofs::Computed::leaves_of_shared, crate::proofs::Computed::leaves_of_private, crate::proofs::Computed::activities))]
pub fn example_network()
    ensures is_network { IsNetwork put_and_get }
    ensures places { all_places put_and_get.parts ≡ 0 ∷ 1 ∷ 2 ∷ 0 ∷ [] }
    ensures shared_places { repeated nat_eq (all_places put_and_get.parts) ≡ 0 ∷ [] }
    ensures numbered { ordered nat_eq (5 ∷ 3 ∷ 4 ∷ 3 ∷ 5 ∷ 7 ∷ []) ≡ 5 ∷ 3 ∷ 4 ∷ 7 ∷ [] }
    ensures leaves_of_shared { importers_of put_and_get.parts 0 ≡ leaf_id 0 ∷ leaf_id 1 ∷ [] }
    ensures leaves_of_private { importers_of put_and_get.parts 2 ≡ leaf_id 1 ∷ [] }
    ensures activities { leaves_of_acts put_and_get.parts ≡ leaf_id 0 ∷ leaf_id 1 ∷ leaf_id 1 ∷ [] }
{}

/// What small leaves do on their own values.
#[tactic(auto, using(crate::proofs::Computed::too_few_tokens, crate::proofs::Computed::enough_tokens, crate::proofs::Computed::order, crate::proofs::Computed::nothing_first, crate::proofs::Computed::lesser_first, crate::proofs::Computed::greater_first, crate::proofs::Computed::activated, crate::proofs::Computed::dropped, crate::proofs::Computed::kept))]
pub fn example_leaves()
    ensures too_few_tokens { enabled_in (taking 0 1 2 0) (0 ∷ 1 ∷ []) ≡ leaf.No }
    ensures enough_tokens { enabled_in (taking 0 1 2 0) (0 ∷ 2 ∷ []) ≡ leaf.Yes }
    ensures order { instants_of four_activities ≡ 2 ∷ 0 ∷ 3 ∷ [] }
    ensures nothing_first { first_in getter (9 ∷ 0 ∷ []) ≡ net.Nothing }
    ensures lesser_first { first_in getter (0 ∷ 1 ∷ []) ≡ net.Enabled 0 }
    ensures greater_first { first_in getter (0 ∷ 2 ∷ []) ≡ net.Enabled 1 }
    ensures activated { renewed_putter 1 (None ∷ [])
        ≡ net.Fresh (row_with (Some (timer 12) ∷ []) 1) }
    ensures dropped { renewed_putter 0 (Some (timer 11) ∷ []) ≡ net.Fresh (row_with (None ∷ []) 0) }
    ensures kept { renewed_putter 1 (Some (timer 11) ∷ [])
        ≡ net.Fresh (row_with (Some (timer 11) ∷ []) 0) }
{}

/// A timer with a pair: activated with and without the activation predicate, then activated anew,
/// or kept where the reactivation predicate or the activation predicate didn't hold.
#[tactic(auto, using(crate::proofs::Reacted::activated_held, crate::proofs::Reacted::activated_bare, crate::proofs::Reacted::activated_anew, crate::proofs::Reacted::kept_without_reactivation, crate::proofs::Reacted::kept_without_activation))]
pub fn example_pair()
    ensures activated_held { renewed_reacting 1 0 (None ∷ [])
        ≡ net.Fresh (row_with (Some (held_timer 12) ∷ []) 1) }
    ensures activated_bare { renewed_reacting 0 1 (None ∷ [])
        ≡ net.Fresh (row_with (Some (timer 12) ∷ []) 1) }
    ensures activated_anew { renewed_reacting 0 1 (Some (held_timer 11) ∷ [])
        ≡ net.Fresh (row_with (Some (timer 12) ∷ []) 1) }
    ensures kept_without_reactivation { renewed_reacting 1 0 (Some (held_timer 11) ∷ [])
        ≡ net.Fresh (row_with (Some (held_timer 11) ∷ []) 0) }
    ensures kept_without_activation { renewed_reacting 0 1 (Some (timer 11) ∷ [])
        ≡ net.Fresh (row_with (Some (timer 11) ∷ []) 0) }
{}

/// The run of the two leaves: the token that one puts is what the other gets.
#[tactic(auto, using(crate::proofs::Computed::put_then_got))]
pub fn example_run()
    ensures { run_of net_to_five ≡ ran (event_at 2 0 0 ∷ event_at 2 1 0 ∷ []) 5 End }
{}

/// Rewards of a small run: a sum, a mean, one at a tick, and an interval beyond the horizon.
#[tactic(auto, using(crate::proofs::Counted::three_ticks, crate::proofs::Counted::sum_and_impulses, crate::proofs::Counted::mean_of_ten, crate::proofs::Counted::one_tick, crate::proofs::Counted::beyond_the_horizon))]
pub fn example_rewards()
    ensures three_ticks { run_of (counting_to 10)
        ≡ ran (tick_at 3 ∷ tick_at 6 ∷ tick_at 9 ∷ []) 10 End }
    ensures sum_and_impulses { worth_of (counting_to 10) 0 (run_of (counting_to 10))
        ≡ Some (Sum (pos 27)) }
    ensures mean_of_ten { worth_of (counting_to 10) 1 (run_of (counting_to 10))
        ≡ Some (Mean (pos 27) 10) }
    ensures one_tick { worth_of (counting_to 10) 2 (run_of (counting_to 10)) ≡ Some (Sum (pos 2)) }
    ensures beyond_the_horizon { worth_of (counting_to 8) 0 (run_of (counting_to 8)) ≡ Some Beyond }
{}

/// Values of rewards' terms at their bounds.
#[tactic(auto, using(crate::proofs::Computed::greatest, crate::proofs::Computed::too_great, crate::proofs::Computed::least, crate::proofs::Computed::too_small))]
pub fn bounds_of_terms()
    ensures greatest { in_bounds (pos 1000000000) ≡ Some (pos 1000000000) }
    ensures too_great { in_bounds (pos 1000000001) ≡ None }
    ensures least { in_bounds (negsuc 999999999) ≡ Some (negsuc 999999999) }
    ensures too_small { in_bounds (negsuc 1000000000) ≡ None }
{}

//! Small networks, run step by step, with their rewards and pieces.

ghost use Rattle.std.specs.Prelude.{◌≡◌, pos, length, Some, [], ◌∷◌};
ghost use Rattle.san_base.specs.declared.ending.Trap.TheVariants as trap;
ghost use Rattle.san_law.specs.Step.{End, Events, Trapped, Unstable};
ghost use Rattle.san_law.specs.Piece.{Fire, piece_of};
ghost use Rattle.san_law.specs.Reward.{Beyond, Sum, Mean};
ghost use Rattle.san_law.specs.Lawful.{IsLaid};
ghost use Rattle.san_law.specs.Network.{AllMade};
ghost use Rattle.san_law.specs.Examples.{about_to_divide, by_priority, counting, drained, event_at, failed_division, flipping, hurrying, job_and_tick, low_and_high, net_with, overflowing, pieces_of, ran, run_of, set_and_divide, spinning, tick_at, toss_at, tossed, worth_of};

/// Runs of small networks, computed step by step.
#[tactic(auto, using(crate::proofs::Computed::last_leaf_first, crate::proofs::Computed::burst_just_fits, crate::proofs::Computed::burst_stops, crate::proofs::Computed::reactivated_by_own_leaf, crate::proofs::Computed::read_in_time, crate::proofs::Computed::event_limit_stops, crate::proofs::Computed::aborted_and_activated_anew, crate::proofs::Computed::greater_priority_first, crate::proofs::Computed::completion_traps, crate::proofs::Computed::renewal_traps, crate::proofs::Computed::next_draws))]
pub fn small_runs()
    ensures last_leaf_first { run_of (net_with low_and_high 5 1000 20) ≡ ran (event_at 2 1 0 ∷ event_at 2 1 1 ∷ event_at 2 0 0 ∷ []) 5 End }
    ensures burst_just_fits { run_of (net_with (drained 3) 4 3 20) ≡ ran (event_at 0 0 0 ∷ event_at 0 0 0 ∷ event_at 0 0 0 ∷ []) 4 End }
    ensures burst_stops { run_of (net_with spinning 4 3 20) ≡ ran (event_at 0 0 0 ∷ event_at 0 0 0 ∷ event_at 0 0 0 ∷ []) 0 Unstable }
    ensures reactivated_by_own_leaf { run_of (net_with job_and_tick 8 1000 20) ≡ ran (event_at 2 1 0 ∷ event_at 3 0 1 ∷ event_at 4 1 0 ∷ event_at 6 1 0 ∷ event_at 8 0 0 ∷ event_at 8 1 0 ∷ []) 8 End }
    ensures read_in_time { run_of (net_with set_and_divide 10 1000 20) ≡ ran (event_at 2 0 0 ∷ event_at 3 1 0 ∷ []) 10 End }
    ensures event_limit_stops { run_of (net_with counting 10 1000 2) ≡ ran (tick_at 3 ∷ tick_at 6 ∷ []) 9 Events }
    ensures aborted_and_activated_anew { run_of (net_with flipping 9 1000 20) ≡ ran (event_at 2 0 0 ∷ event_at 4 0 0 ∷ event_at 9 0 1 ∷ []) 9 End }
    ensures greater_priority_first { run_of (net_with by_priority 1 1000 20) ≡ ran (event_at 0 0 1 ∷ event_at 0 0 1 ∷ []) 1 End }
    ensures completion_traps { run_of (net_with overflowing 5 1000 20) ≡ ran [] 1 (Trapped 0 0 trap.Marking) }
    ensures renewal_traps { run_of (net_with hurrying 9 1000 20) ≡ ran (event_at 2 0 0 ∷ event_at 3 0 0 ∷ []) 3 (Trapped 0 0 trap.Delay) }
    ensures next_draws { run_of tossed ≡ ran (toss_at 20 30 ∷ toss_at 41 31 ∷ toss_at 63 32 ∷ []) 70 End }
{}

/// Rewards of a small run: a sum, a mean, one at a tick, and intervals beyond the horizon.
#[tactic(auto, using(crate::proofs::Computed::sum_and_impulses, crate::proofs::Computed::mean_of_ten, crate::proofs::Computed::one_tick, crate::proofs::Computed::beyond_the_horizon, crate::proofs::Computed::within_the_horizon))]
pub fn small_rewards()
    ensures sum_and_impulses { let net = net_with counting 10 1000 20 in worth_of net 0 (run_of net) ≡ Some (Sum (pos 27)) }
    ensures mean_of_ten { let net = net_with counting 10 1000 20 in worth_of net 1 (run_of net) ≡ Some (Mean (pos 27) 10) }
    ensures one_tick { let net = net_with counting 10 1000 20 in worth_of net 2 (run_of net) ≡ Some (Sum (pos 2)) }
    ensures beyond_the_horizon { let net = net_with counting 8 1000 20 in worth_of net 0 (run_of net) ≡ Some Beyond }
    ensures within_the_horizon { let net = net_with counting 8 1000 20 in worth_of net 2 (run_of net) ≡ Some (Sum (pos 2)) }
{}

/// Pieces of small runs: a division by an early read traps, and 64 completions end a piece.
#[tactic(auto, using(crate::proofs::Computed::early_read_traps, crate::proofs::Computed::below_a_piece, crate::proofs::Computed::just_a_piece, crate::proofs::Computed::above_a_piece, crate::proofs::Computed::three_ticks))]
pub fn small_pieces()
    ensures early_read_traps { piece_of (net_with set_and_divide 10 1000 20) 1 (Fire 0) 3 about_to_divide (0 ∷ []) ≡ failed_division }
    ensures below_a_piece { pieces_of (net_with (drained 63) 4 1000 100) ≡ 2 }
    ensures just_a_piece { pieces_of (net_with (drained 64) 4 1000 100) ≡ 3 }
    ensures above_a_piece { pieces_of (net_with (drained 65) 4 1000 100) ≡ 3 }
    ensures three_ticks { pieces_of (net_with counting 10 1000 20) ≡ 8 }
{}

/// The law's premises are met by a network of two leaves that share a place.
#[tactic(auto, using(crate::proofs::Made::set_and_divide_is_made, crate::proofs::Made::set_and_divide_is_laid))]
pub fn the_law_has_a_subject()
    ensures made { AllMade set_and_divide }
    ensures laid { IsLaid (net_with set_and_divide 10 1000 20) 4 }
{}

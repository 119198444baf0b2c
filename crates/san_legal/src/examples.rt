//! What is kept of a run of a small network, computed.

ghost use Rattle.std.specs.Prelude.{◌≡◌, [], ◌∷◌};
ghost use Rattle.san_law.specs.Network.{part_at};
ghost use Rattle.san_legal.specs.Draws.{AgreeOn};
ghost use Rattle.san_legal.specs.Examples.{after_both, after_steady, at_opening, both_run, no_draw_taken, race, racing, slow_late, steady_first, steady_then_slow, ten_ticks, two_draws_taken};
ghost use Rattle.san_legal.specs.Free.{IsFreeNetwork};
ghost use Rattle.san_legal.specs.Kept.{KeptState};
ghost use Rattle.san_legal.specs.KeptSteps.{kept_completed, kept_fired, kept_opening, kept_renewed};
ghost use Rattle.san_legal.specs.Laws.{IsKept, IsLegal};
ghost use Rattle.san_legal.specs.Legal.{due_in};

/// One of two timers completes first, at its only time, and what is kept then leaves the other its
/// later times; that other one can't come first after the only time of the one.
#[tactic(auto, using(crate::proofs::Computed::opening_computed, crate::proofs::Computed::renewal_computed, crate::proofs::Computed::completion_computed, crate::proofs::Computed::steady_may_be_first, crate::proofs::Computed::racing_free, crate::proofs::Race::both_come, crate::proofs::Race::race_is_legal, crate::proofs::Race::draws_agree))]
pub fn a_small_race()
    ensures opening { kept_opening race ≡ at_opening }
    ensures renewal { kept_renewed race at_opening (two_draws_taken ∷ []) ≡ both_run ∷ [] }
    ensures completion { kept_completed race (kept_fired at_opening (both_run ∷ []) (due_in steady_first)) 0 0 1 (1 ∷ 0 ∷ []) ≡ after_steady }
    ensures comes { IsKept racing ten_ticks (steady_first ∷ []) after_steady }
    ensures both_come { IsKept racing ten_ticks steady_then_slow.events after_both }
    ensures not_first { (k : KeptState) → IsKept racing ten_ticks (slow_late ∷ []) k → ⊥ }
    ensures legal { IsLegal racing ten_ticks steady_then_slow }
    ensures free { IsFreeNetwork racing }
    // draws that agree in the numbers that were taken, and differ in all others
    ensures agree { AgreeOn (λ stream number. 0) (λ stream number. number) (part_at racing 0) no_draw_taken two_draws_taken }
{}

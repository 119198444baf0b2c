//! What is kept of a state, and which states agree with it, computed.

ghost use Rattle.std.specs.Prelude.{◌≡◌, [], ◌∷◌, Some, None, true, false};
ghost use Rattle.san_law.specs.Activity.{Instant};
ghost use Rattle.san_law.specs.Net.{no_row};
ghost use Rattle.san_law.specs.State.{opening_state};
ghost use Rattle.san_legal.specs.Examples.{after_both, after_steady, at_opening, both_done, both_run, one_left, race, racing, set_at_opening, slow, steady, steady_done, two_draws_taken};
ghost use Rattle.san_legal.specs.Kept.{GivesDelay, HasOne, HaveSome, IsLater, IsOne, MayBeDue, RowAgrees, StateAgrees, bound_of, kept_at, no_kept, timer_of, with_rows};
ghost use Rattle.san_legal.specs.KeptSteps.{kept_bare, kept_case, kept_renewed, kept_without, row_in, set_by, state_in, timer_in};

/// The slow timer, which takes 2 to 4 ticks, after the steady one completed at 3: it is due at 4.
#[tactic(auto, using(crate::proofs::KeptValues::slow_gives_four, crate::proofs::KeptValues::due_at_four, crate::proofs::KeptValues::one_at_four))]
pub fn a_kept_timer()
    ensures bound { bound_of after_steady ≡ record { time = 3; leaf = 0; act = 1 } }
    ensures timer { timer_of both_run 1 ≡ Some set_at_opening }
    ensures no_timer { timer_of (kept_at (both_run ∷ []) 1) 0 ≡ None }
    ensures delay { GivesDelay slow.kind [] 4 }
    ensures no_delay { GivesDelay slow.kind [] 5 → ⊥ }
    ensures instant { GivesDelay (Instant 0) [] 1 → ⊥ }
    // a later time; and at the same time, what stands after the steady one, but not what stands before
    ensures later { IsLater (bound_of after_steady) 0 0 4 }
    ensures after_act { IsLater (bound_of after_steady) 0 2 3 }
    ensures after_leaf { IsLater (bound_of after_steady) 1 0 3 }
    ensures not_later { IsLater (bound_of after_steady) 0 0 3 → ⊥ }
    ensures due { MayBeDue (bound_of after_steady) 0 0 slow.kind set_at_opening 4 }
    ensures not_due { MayBeDue (bound_of after_steady) 0 0 slow.kind set_at_opening 3 → ⊥ }
    ensures one { IsOne (bound_of after_steady) 0 0 slow.kind (Some set_at_opening) (Some (record { due = 4; held = false })) }
    ensures not_held { IsOne (bound_of after_steady) 0 0 slow.kind (Some set_at_opening) (Some (record { due = 4; held = true })) → ⊥ }
    ensures some { HaveSome racing (bound_of after_steady) after_steady.rows }
    // once the slow one completed at 4, the steady one would have no time left
    ensures none { HasOne (bound_of after_both) 0 1 steady.kind (Some set_at_opening) → ⊥ }
{}

/// Rows of the race: what its renewals and completions make of them.
pub fn kept_rows()
    ensures timer_in { timer_in (Some set_at_opening) ≡ Some (record { due = 0; held = false }) }
    ensures row_in { row_in no_kept ≡ no_row }
    ensures state_in { state_in at_opening ≡ opening_state race }
    // a timer that took a draw was set now; one that took none is as it was, and may be gone
    ensures set { set_by 5 (7 ∷ []) None true (Some (record { due = 9; held = true })) ≡ Some (record { since = 5; values = 7 ∷ []; held = true }) }
    ensures stays { set_by 5 (7 ∷ []) (Some set_at_opening) false (Some (record { due = 4; held = false })) ≡ Some set_at_opening }
    ensures gone { set_by 5 (7 ∷ []) (Some set_at_opening) false None ≡ None }
    ensures renewed { kept_renewed race after_steady (one_left ∷ []) ≡ after_steady.rows }
    ensures without { kept_without both_run 1 ≡ record { timers = Some set_at_opening ∷ None ∷ []; delays = 1 ∷ 1 ∷ []; cases = 0 ∷ 0 ∷ [] } }
    ensures case { (kept_case both_run 1).cases ≡ 0 ∷ 1 ∷ [] }
    ensures bare { kept_bare two_draws_taken ≡ record { timers = None ∷ None ∷ []; delays = 1 ∷ 1 ∷ []; cases = 0 ∷ 0 ∷ [] } }
{}

/// States of the race that agree with what is kept.
#[tactic(auto, using(crate::proofs::KeptValues::opening_agrees, crate::proofs::KeptValues::steady_agrees, crate::proofs::KeptValues::both_agree))]
pub fn agreeing_states()
    ensures rows { with_rows after_both both_done.rows ≡ both_done }
    ensures opening { StateAgrees racing at_opening (opening_state race) }
    ensures steady { StateAgrees racing after_steady (steady_done 4) }
    ensures both { StateAgrees racing after_both both_done }
    // at 3 the slow one would have come before the steady one, and at 5 no draw puts it
    ensures not_at_three { StateAgrees racing after_steady (steady_done 3) → ⊥ }
    ensures not_at_five { StateAgrees racing after_steady (steady_done 5) → ⊥ }
{}

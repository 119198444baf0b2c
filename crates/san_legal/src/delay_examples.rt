//! Delays and cases over all draws, and what makes draws free, computed.

ghost use Rattle.std.specs.Prelude.{◌≡◌, ◌+◌, pos, negsuc, ℕ, [], ◌∷◌, Ok, Err, nat_eq, if◌then◌else◌};
ghost use Rattle.san_base.specs.Draws.{pick};
ghost use Rattle.san_base.specs.declared.ending.Trap.TheVariants as trap;
ghost use Rattle.san_expr.specs.declared.dist.Dist.TheVariants as dist;
ghost use Rattle.san_expr.specs.declared.expr.Expr.TheVariants.{Number};
ghost use Rattle.san_law.specs.Activity.{Instant};
ghost use Rattle.san_legal.specs.Cases.{IsChosen, IsWeighted};
ghost use Rattle.san_legal.specs.Delays.{AreThose, Between, Exactly, IsDelayOf, IsGiven, OneOf, UpTo, delays_of};
ghost use Rattle.san_legal.specs.Examples.{one_none_three, racing, slow, twice, undecided, weighing};
ghost use Rattle.san_legal.specs.Free.{AreDelays, HasDelays, IsFree};
ghost use Rattle.san_legal.specs.FreeRuns.{HasOwnStreams};
ghost use Rattle.san_net.specs.Choice.{case_of};

/// The delays of each distribution: a value, a span, a table with an entry of weight 0, and a delay
/// that each tick ends with a probability of 999 / 1000. What is left of 2 ^ 64 is less than 1 after 7.
#[tactic(auto, using(crate::proofs::DelayValues::value_computed, crate::proofs::DelayValues::negative_traps, crate::proofs::DelayValues::span_computed, crate::proofs::DelayValues::empty_span_traps, crate::proofs::DelayValues::likely_computed))]
pub fn small_delays()
    ensures value { (delays_of (dist.Det (Number (pos 3))) []).answer ≡ Ok (Exactly 3) }
    ensures negative { (delays_of (dist.Det (Number (negsuc 0))) []).answer ≡ Err trap.Delay }
    ensures span { (delays_of (dist.Uniform (Number (pos 2)) (Number (pos 4))) []).answer ≡ Ok (Between 2 4) }
    ensures empty_span { (delays_of (dist.Uniform (Number (pos 4)) (Number (pos 2))) []).answer ≡ Err trap.Delay }
    ensures table { (delays_of (dist.Table ((2, 1) ∷ (5, 0) ∷ [])) []).answer ≡ Ok (OneOf ((2, 1) ∷ (5, 0) ∷ [])) }
    ensures geometric { (delays_of (dist.Geom 999 1000) []).answer ≡ Ok (UpTo 7) }
{}

/// Which delays these are, and that some draw gives each.
#[tactic(auto, using(crate::proofs::DelayValues::heavy_entry, crate::proofs::DelayValues::four_between, crate::proofs::DelayValues::all_up_to, crate::proofs::DelayValues::four_given, crate::proofs::DelayValues::two_to_four))]
pub fn given_delays()
    ensures exact { IsDelayOf (Exactly 3) 3 }
    ensures not_exact { IsDelayOf (Exactly 3) 4 → ⊥ }
    ensures between { IsDelayOf (Between 2 4) 4 }
    ensures not_between { IsDelayOf (Between 2 4) 5 → ⊥ }
    ensures heavy { IsDelayOf (OneOf ((2, 1) ∷ (5, 0) ∷ [])) 2 }
    ensures light { IsDelayOf (OneOf ((2, 1) ∷ (5, 0) ∷ [])) 5 → ⊥ }
    ensures up_to { IsDelayOf (UpTo 7) 7 }
    ensures not_up_to { IsDelayOf (UpTo 7) 8 → ⊥ }
    ensures given { IsGiven (λ u. Ok (2 + pick u 3)) 4 }
    ensures not_given { IsGiven (λ u. Ok (2 + pick u 3)) 5 → ⊥ }
    ensures those { AreThose (λ u. Ok (2 + pick u 3)) (Ok (Between 2 4)) }
    ensures not_those { AreThose (λ u. Ok (2 + pick u 3)) (Ok (Between 2 5)) → ⊥ }
    ensures trap { AreThose (λ u. Err trap.Delay) (Err trap.Delay) }
{}

/// Of cases with weights 1, 0 and 3 some draw chooses the last, and none the second.
#[tactic(auto, using(crate::proofs::CaseValues::last_chosen, crate::proofs::CaseValues::last_weighted))]
pub fn small_choices()
    ensures chosen { IsChosen one_none_three [] 2 }
    ensures not_chosen { IsChosen one_none_three [] 1 → ⊥ }
    ensures weighted { IsWeighted one_none_three [] 2 }
    ensures not_weighted { IsWeighted one_none_three [] 1 → ⊥ }
    ensures all_zero { (u : ℕ) → (case_of u (weighing 0 ∷ []) []).answer ≡ Err trap.Weight }
{}

/// Draws are free where delays are some ticks or trap at each draw, where a case tells what a
/// completion leaves, and where no two activities have a stream in common.
pub fn free_draws()
    ensures delays { AreDelays (λ u v. Ok 3) }
    ensures no_ticks { AreDelays (λ u v. Ok 0) → ⊥ }
    ensures some_trap { AreDelays (λ u v. if nat_eq u 0 then Err trap.Delay else Ok 3) → ⊥ }
    ensures instant { HasDelays (Instant 0) }
    ensures free { IsFree slow }
    ensures undecided { IsFree undecided → ⊥ }
    ensures own { HasOwnStreams racing }
    ensures not_own { HasOwnStreams twice → ⊥ }
{}

//! Draws of a small race, and runs with them, computed.

ghost use Rattle.std.specs.Prelude.{◌+◌, ◌^◌, [], ◌∷◌};
ghost use Rattle.san_law.specs.Net.{no_row};
ghost use Rattle.san_law.specs.Network.{part_at};
ghost use Rattle.san_law.specs.State.{opening_state};
ghost use Rattle.san_law.specs.Step.{End, Happened, Over};
ghost use Rattle.san_legal.specs.Draws.{AgreeNext, AgreeOn, AgreeTaken, AreDraws};
ghost use Rattle.san_legal.specs.Examples.{at_opening, both_done, late_draw, no_draw_taken, race, racing, slow_late, steady_done, steady_first, steady_then_slow, ten_ticks, two_draws_taken};
ghost use Rattle.san_legal.specs.FreeRuns.{FreeRuns, IsFreeStep, IsOfDraws};
ghost use Rattle.san_legal.specs.Kept.{with_rows};
ghost use Rattle.san_legal.specs.Laws.{BeginsRun, IsReached, IsTrajectory};
ghost use Rattle.san_legal.specs.Locality.{IsSized, IsSizedRow};

/// Draws that agree where the first renewal takes them, and where the next one would. One function
/// gives 0 for each draw, the other its number.
#[tactic(auto, using(crate::proofs::DrawValues::late_words, crate::proofs::DrawValues::next_agree, crate::proofs::DrawValues::rows_agree, crate::proofs::DrawValues::opening_sized))]
pub fn agreeing_draws()
    ensures words { AreDraws (λ stream number. late_draw) }
    ensures not_words { AreDraws (λ stream number. 2 ^ 64) → ⊥ }
    // the first renewal takes draw 0 of both activities
    ensures taken { AgreeTaken racing (λ stream number. 0) (λ stream number. number) (opening_state race) (with_rows at_opening (two_draws_taken ∷ [])) }
    ensures not_taken { AgreeOn (λ stream number. 0) (λ stream number. number + 1) (part_at racing 0) no_draw_taken two_draws_taken → ⊥ }
    // draw 0 is next, and after that renewal draw 1
    ensures next { AgreeNext (λ stream number. 0) (λ stream number. number) (part_at racing 0) no_draw_taken }
    ensures not_next { AgreeNext (λ stream number. 0) (λ stream number. number) (part_at racing 0) two_draws_taken → ⊥ }
    ensures sized { IsSized racing (opening_state race) }
    ensures not_sized { IsSizedRow (part_at racing 0) no_row → ⊥ }
{}

/// The race with draws by which the slow timer takes 4 ticks.
#[tactic(auto, using(crate::proofs::DrawValues::step_with_draws, crate::proofs::DrawValues::race_by_steps, crate::proofs::DrawValues::race_of_draws, crate::proofs::DrawValues::steady_reached, crate::proofs::DrawValues::race_is_trajectory, crate::proofs::DrawValues::race_begins))]
pub fn a_race_with_draws()
    ensures step { IsFreeStep racing ten_ticks (opening_state race) (Happened steady_first, steady_done 4) }
    // the second step may take other draws than the first
    ensures free { FreeRuns racing ten_ticks (opening_state race) (steady_first ∷ slow_late ∷ []) both_done }
    ensures of_draws { IsOfDraws racing ten_ticks (opening_state race) (steady_first ∷ slow_late ∷ []) both_done (Over 10 End, both_done) }
    ensures reached { IsReached racing ten_ticks (steady_first ∷ []) (steady_done 4) }
    ensures begins { BeginsRun racing ten_ticks (steady_first ∷ []) }
    ensures trajectory { IsTrajectory racing ten_ticks steady_then_slow }
{}

//! The laws of starts: where a run goes on, and which pieces are left then.

ghost use Rattle.san_law.specs.Lawful.{IsLawful};
ghost use Rattle.san_law.specs.Net.{Net};
ghost use Rattle.san_law.specs.Rates.{OpensAtAnyRates};
ghost use Rattle.san_law.specs.Starts.{AdvanceBefore, AfterBefore, AfterMore, MorePieces, NoMorePieces, OpeningIsStart, PiecesBefore, RestOfPieces, ResumedIsStart, TakenBefore};

/// Events before a core's own change nothing of what it takes.
#[tactic(auto, using(crate::proofs::Starts::taken_before, crate::proofs::Starts::advance_before, crate::proofs::Starts::after_before, crate::proofs::Starts::pieces_before))]
pub fn earlier_events_change_nothing()
    ensures taken { (net : Net) → TakenBefore net }
    ensures advance { (net : Net) → AdvanceBefore net }
    ensures after { (net : Net) → AfterBefore net }
    ensures pieces { (net : Net) → PiecesBefore net }
{}

/// The pieces after so many are the rest of the pieces.
pub fn pieces_go_on()
    ensures after { (net : Net) → AfterMore net }
    ensures rest { (net : Net) → IsLawful net → RestOfPieces net }
    ensures more { (net : Net) → IsLawful net → MorePieces net }
    ensures no_more { (net : Net) → IsLawful net → NoMorePieces net }
{}

/// An opening follows the run at any rates, since the first refreshes set them.
#[tactic(auto, using(crate::proofs::AnyRates::opens_at_any_rates))]
pub fn an_opening_has_any_rates()
    ensures { (net : Net) → IsLawful net → OpensAtAnyRates net }
{}

/// An opening is a start, and so is a core that goes on from another's committed part.
#[tactic(auto, using(crate::proofs::AnyRates::opening_is_start, crate::proofs::AnyRates::resumed_is_start))]
pub fn a_run_starts_again()
    ensures opening { (net : Net) → IsLawful net → OpeningIsStart net }
    ensures resumed { (net : Net) → ResumedIsStart net }
{}

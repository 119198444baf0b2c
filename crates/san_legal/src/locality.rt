//! A run looks at no draw but those that it takes.

ghost use Rattle.san_law.specs.Activity.{Part};
ghost use Rattle.san_law.specs.Network.{Network};
ghost use Rattle.san_legal.specs.Locality.{CompletionLooksAtTaken, RenewalLooksAtTaken, RunLooksAtTaken, StepLooksAtNext, StepLooksAtTaken};

/// With other draws a leaf's renewal is the same, where those that it took are the same.
#[tactic(auto, using(crate::proofs::DrawLemmas::renewal_looks_at_taken))]
pub fn a_renewal_looks_at_the_draws_that_it_takes()
    ensures { (part : Part) → RenewalLooksAtTaken part }
{}

/// So is a completion, which takes one case draw.
#[tactic(auto, using(crate::proofs::StepLemmas::completion_looks_at_taken))]
pub fn a_completion_looks_at_the_draw_that_it_takes()
    ensures { (part : Part) → CompletionLooksAtTaken part }
{}

/// So is a step, and so are the events of a run and the state that it comes to.
#[tactic(auto, using(crate::proofs::StepLemmas::step_looks_at_taken, crate::proofs::StepLemmas::run_looks_at_taken))]
pub fn a_run_looks_at_the_draws_that_it_takes()
    ensures step { (network : Network) → StepLooksAtTaken network }
    ensures run { (network : Network) → RunLooksAtTaken network }
{}

/// Whatever a step comes to, an event or the run's end, it looks at no draw but the next of each
/// activity.
#[tactic(auto, using(crate::proofs::NextDrawLemmas::step_looks_at_next))]
pub fn a_step_looks_at_next_draws()
    ensures { (network : Network) → StepLooksAtNext network }
{}

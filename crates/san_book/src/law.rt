//! The laws of a core's steps.

ghost use Rattle.san_book.specs.Machines.{Machine};
ghost use Rattle.san_book.specs.Whole.{IsLawfulMachine};
ghost use Rattle.san_book.specs.Laws.{EventsGrow, EveryRun, GoesOnByRedo, JournalGoesOn, JournalIsShort, OpensWhole, PlansLeast, PlansNone, RestsOrEnded, RollbacksAreFew, RunsAreBrief, StepsAreBooked, StepsAreBrief, StepsBound, StepsCommit, StepsCount, StepsKeep, StepsLeave};

/// Each step keeps a core whole: the lines are the committed values and the chains' writes, and the
/// chains go on from what is committed. Only a commit and a redo change what is committed.
#[tactic(auto, using(crate::proofs::Keeping::steps_keep, crate::proofs::Committing::steps_leave))]
pub fn a_step_keeps_a_core_whole<H, S, P>()
    ensures whole { (m : Machine H S P) → IsLawfulMachine m → StepsKeep m }
    ensures leave { (m : Machine H S P) → StepsLeave m }
{}

/// What is committed is what the needed pieces make of the start, one after another, and no
/// committed event is taken back.
#[tactic(auto, using(crate::proofs::Committing::steps_commit, crate::proofs::Committing::events_grow))]
pub fn what_is_committed_is_needed<H, S, P>()
    ensures pieces { (m : Machine H S P) → IsLawfulMachine m → StepsCommit m }
    ensures events { (m : Machine H S P) → IsLawfulMachine m → EventsGrow m }
{}

/// No leaf is claimed twice, no chain is longer than the window, and the rollbacks stay within
/// their limit, the windows of all leaves and the workers.
#[tactic(auto, using(crate::proofs::Bounding::steps_bound))]
pub fn rollbacks_are_bounded<H, S, P>()
    ensures step { (m : Machine H S P) → StepsBound m }
    ensures run { (m : Machine H S P) → IsLawfulMachine m → RollbacksAreFew m }
{}

/// The numbers of claims, late ones, committed and redone pieces are the journal's.
#[tactic(auto, using(crate::proofs::Counting::steps_count))]
pub fn counts_are_the_journals<H, S, P>()
    ensures { (m : Machine H S P) → StepsCount m }
{}

/// A journal stays bounded where no claim reads more places than a leaf may have.
#[tactic(auto, using(crate::proofs::Briefness::steps_are_brief))]
pub fn a_journal_is_bounded<H, S, P>()
    ensures step { (m : Machine H S P) → StepsAreBrief m }
    ensures steps { (m : Machine H S P) → IsLawfulMachine m → RunsAreBrief m }
    ensures run { (m : Machine H S P) → IsLawfulMachine m → JournalIsShort m }
{}

/// Each step is booked, and a journal that replays goes on replaying.
#[tactic(auto, using(crate::proofs::Counting::steps_are_booked, crate::proofs::Replaying::journal_goes_on))]
pub fn a_journal_goes_on<H, S, P>()
    ensures booked { (m : Machine H S P) → StepsAreBooked m }
    ensures replays { (m : Machine H S P) → JournalGoesOn m }
{}

/// Whatever steps an opened core comes to, it is whole, bounded and counted, what is committed is
/// what is needed, and its journal is those steps.
pub fn every_run_keeps_the_law<H, S, P>()
    ensures opening { (m : Machine H S P) → OpensWhole m }
    ensures run { (m : Machine H S P) → IsLawfulMachine m → EveryRun m }
{}

/// A core that goes on can redo; one that has ended or rests neither claims nor commits nor redoes.
pub fn a_core_goes_on_until_it_rests<H, S, P>()
    ensures redo { (m : Machine H S P) → GoesOnByRedo m }
    ensures rest { (m : Machine H S P) → RestsOrEnded m }
{}

/// The leaf that is claimed is free, and the least by the time of its next piece and by number; no
/// leaf is claimed only where none is free.
#[tactic(auto, using(crate::proofs::Planning::plans_none))]
pub fn the_least_leaf_is_claimed<H, S, P>()
    ensures least { (m : Machine H S P) → PlansLeast m }
    ensures none { (m : Machine H S P) → PlansNone m }
{}

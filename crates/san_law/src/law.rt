//! The laws of the core's committed part: what taking a needed piece keeps, and what follows.

ghost use Rattle.std.specs.Prelude.{List};
ghost use Rattle.san_law.specs.Net.{Net, Row};
ghost use Rattle.san_law.specs.Lawful.{IsLawful};
ghost use Rattle.san_law.specs.Left.{PieceLeavesLess};
ghost use Rattle.san_law.specs.First.{FirstIsBeforeAll, NoneIsFirst};
ghost use Rattle.san_law.specs.Laws.{PieceKeeps, PiecesKeep, OpensWell, FinishIsEnd, StopIsTrajectory, FinishIsTrajectory, OutcomeIsTrajectory, EventsArePrefix, ResumedFollows, HasTrajectory, RunsWithin, RestIsTrajectory, FreshIsUnchanged, TallyIsFew, TallyIsWorth, PiecesAreNeeded, SameView, AheadIsNeeded, RowsAreRenewed, SeenIsKept};

/// Taking the needed piece keeps the standing, whether or not it comes to a stop.
#[tactic(auto, using(crate::proofs::Standing::piece_keeps))]
pub fn a_piece_keeps_the_standing()
    ensures { (net : Net) → IsLawful net → PieceKeeps net }
{}

/// However many needed pieces are taken, the standing is kept.
#[tactic(auto, using(crate::proofs::Standing::pieces_keep))]
pub fn pieces_keep_the_standing()
    ensures { (net : Net) → IsLawful net → PiecesKeep net }
{}

/// From its opening on a core follows the run, where the places are laid out apart.
#[tactic(auto, using(crate::proofs::Opening::opens_well))]
pub fn an_opening_is_followed()
    ensures { (net : Net) → IsLawful net → OpensWell net }
{}

/// A core that has ended has the events and the ending of the trajectory.
#[tactic(auto, using(crate::proofs::Standing::finish_is_end, crate::proofs::Trajectories::stop_is_trajectory, crate::proofs::Trajectories::finish_is_trajectory, crate::proofs::Trajectories::outcome_is_trajectory))]
pub fn an_end_is_the_trajectory()
    ensures step { (net : Net) → IsLawful net → FinishIsEnd net }
    ensures stop { (net : Net) → StopIsTrajectory net }
    ensures finish { (net : Net) → IsLawful net → FinishIsTrajectory net }
    ensures outcome { (net : Net) → IsLawful net → OutcomeIsTrajectory net }
{}

/// A core's events, after those before its start, are the first of the trajectory.
#[tactic(auto, using(crate::proofs::Trajectories::events_are_prefix))]
pub fn events_are_a_prefix()
    ensures { (net : Net) → EventsArePrefix net }
{}

/// A core that is started anew from another's committed part follows the same run.
#[tactic(auto, using(crate::proofs::Resumed::resumed_follows))]
pub fn a_resumed_core_follows()
    ensures { (net : Net) → ResumedFollows net }
{}

/// Every run comes to an ending within the event limit, and goes on as the trajectory of each state on its way.
#[tactic(auto, using(crate::proofs::Trajectories::has_trajectory, crate::proofs::Steps::runs_within, crate::proofs::Trajectories::rest_is_trajectory))]
pub fn a_run_has_an_ending()
    ensures ends { (net : Net) → HasTrajectory net }
    ensures within { (net : Net) → RunsWithin net }
    ensures rest { (net : Net) → RestIsTrajectory net }
{}

/// A leaf that isn't stale has nothing to refresh.
#[tactic(auto, using(crate::proofs::Opening::fresh_is_unchanged))]
pub fn a_fresh_leaf_stays()
    ensures { (net : Net) → IsLawful net → FreshIsUnchanged net }
{}

/// The timer that a step takes is before all others by due time, then leaf, then activity.
#[tactic(auto, using(crate::proofs::Firsts::first_is_before_all, crate::proofs::Firsts::none_is_first))]
pub fn the_least_timer_is_first()
    ensures first { (rows : List Row) → FirstIsBeforeAll rows }
    ensures none { (rows : List Row) → NoneIsFirst rows }
{}

/// Each needed piece leaves less to take, so that a core comes to its end.
#[tactic(auto, using(crate::proofs::Leaving::piece_leaves_less))]
pub fn a_piece_leaves_less()
    ensures { (net : Net) → IsLawful net → PieceLeavesLess net }
{}

/// A core has counted at most 1,024 impulses for each of its events.
#[tactic(auto, using(crate::proofs::Steps::tally_is_few))]
pub fn a_tally_is_small()
    ensures { (net : Net) → TallyIsFew net }
{}

/// The running sums of a core that needs no piece are the rewards of the trajectory.
#[tactic(auto, using(crate::proofs::Rewards::tally_is_worth))]
pub fn a_tally_is_the_rewards()
    ensures { (net : Net) → TallyIsWorth net }
{}

/// A piece that was made ahead is the needed one, where its leaf saw what the committed values show.
#[tactic(auto, using(crate::proofs::Ahead::same_view, crate::proofs::Ahead::ahead_is_needed))]
pub fn a_piece_ahead_is_the_needed_one()
    ensures same { (net : Net) → SameView net }
    ensures taken { (net : Net) → AheadIsNeeded net }
{}

/// The pieces of a run are a function of its start: one needed piece after another until the end.
#[tactic(auto, using(crate::proofs::Pieces::pieces_are_needed))]
pub fn pieces_are_the_needed_ones()
    ensures { (net : Net) → IsLawful net → PiecesAreNeeded net }
{}

/// A core's timers and draws are those of its state with some leaves renewed, and what its leaves have seen goes with it.
#[tactic(auto, using(crate::proofs::Renewed::rows_are_renewed, crate::proofs::Renewed::seen_is_kept))]
pub fn a_core_is_renewed_in_part()
    ensures rows { (net : Net) → RowsAreRenewed net }
    ensures seen { (net : Net) → SeenIsKept net }
{}

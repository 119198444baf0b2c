//! Free runs: each step takes draws of its own, and yet they are the runs of some draws.

ghost use Rattle.san_law.specs.Network.{Network};
ghost use Rattle.san_legal.specs.FreeRuns.{HasOwnStreams, FreeRunsAreOfDraws};

/// Runs in which each step takes any draws are those of some draws, with what comes after their
/// last event, where no two activities have a stream in common.
pub fn free_runs_are_of_some_draws()
    ensures { (network : Network) → HasOwnStreams network → FreeRunsAreOfDraws network }
{}

//! Laws: what the events of a run are.

ghost use Rattle.std.specs.Prelude.{◌≡◌, ◌<◌, ℕ, List, length, Option, Some};
ghost use Rattle.san_law.specs.Network.{Limits};
ghost use Rattle.san_law.specs.Next.{next_instant};
ghost use Rattle.san_law.specs.State.{State};
ghost use Rattle.san_net.specs.Laid.{IsNetwork};
ghost use Rattle.san_net.specs.Network.{Network, net_of};
ghost use Rattle.san_seq.specs.FlatRun.{HasRest, Run, TellsPrefix};
ghost use Rattle.san_seq.specs.inner.Nexts.{next_among};
ghost use Rattle.san_seq.specs.Reaching.{EventsAreInTime, EventsAreTheLaws};

/// What completes next among a network's parts is what the law says of its net, whatever the draws
/// and the limits.
#[tactic(auto, using(crate::proofs::NextLaws::next_is))]
pub(crate) fn the_next_is_the_laws()
    ensures { (n : Network) (draw : ℕ → ℕ → ℕ) (limits : Limits) (s : State) (m : List ℕ)
        → IsNetwork n → s.marking ≡ m → (last : Option ℕ) → s.last ≡ last → ((j : ℕ) → last
        ≡ Some j → j < length n.parts) → next_among n.parts last m
        ≡ next_instant (net_of n draw limits) s }
{}

/// The events that a run's steps answered are the first of its trajectory, which goes on as that of the
/// run that they left; they are no more than the event limit leaves.
#[tactic(auto, using(crate::proofs::RunLemmas::tells_prefix))]
pub fn events_are_the_first()
    ensures { (r : Run) → TellsPrefix r }
{}

/// Every run has its trajectory.

pub fn a_run_comes_to_its_end()
    ensures { (r : Run) → HasRest r }
{}

/// An event that a step tells is the law's.

pub fn events_are_the_laws()
    ensures { (r : Run) → EventsAreTheLaws r }
{}

/// From its opening on a run's events come in order of time up to the horizon, with the impulses of
/// the markings that they reach.

pub fn events_come_in_time()
    ensures { (n : Network) → EventsAreInTime n }
{}

//! What draws can give: delays and cases, and that a network's draws are free.

ghost use Rattle.std.specs.Prelude.{List, ℕ};
ghost use Rattle.san_expr.specs.declared.dist.Dist.{Dist};
ghost use Rattle.san_legal.specs.Cases.{CasesAreDrawn, ChoicesTrapAlike};
ghost use Rattle.san_legal.specs.Delays.{DelaysAreThoseOfDraws, WeightsAreDrawn};
ghost use Rattle.san_legal.specs.Free.{IsFreeNetwork};
ghost use Rattle.san_legal.specs.Latest.{LatestDecides};
ghost use Rattle.san_legal.specs.Laws.{KeptStatesAreThoseOfRuns, LegalEventsAreThoseOfRuns, LegalRunsAreThoseOfDraws};
ghost use Rattle.san_net.specs.Laid.{IsNetwork};
ghost use Rattle.san_net.specs.Network.{Network, network_in};
ghost use Rattle.san_net.specs.declared.activity.Case.{Case};

/// A distribution's delays are those that some draw gives, and a trap of one draw is that of each.
pub fn delays_are_those_of_draws()
    ensures { (d : Dist) → DelaysAreThoseOfDraws d }
{}

/// Each case of positive weight is chosen by some draw, and no other; and where weights can't be
/// chosen from, each draw ends with the same trap.
pub fn weighted_cases_are_drawn()
    ensures weights { (weights : List ℕ) → WeightsAreDrawn weights }
    ensures cases { (cases : List Case) → CasesAreDrawn cases }
    ensures traps { (cases : List Case) → ChoicesTrapAlike cases }
{}

/// Every network's draws are free: its delays are at least one tick and trap whatever the draw, a
/// case tells what a completion does, and no two activities have a stream in common. So the laws of
/// free runs hold of it.
pub fn networks_are_free()
    ensures free { (n : Network) → IsNetwork n → IsFreeNetwork (network_in n) }
    ensures kept { (n : Network) → IsNetwork n → KeptStatesAreThoseOfRuns (network_in n) }
    ensures events { (n : Network) → IsNetwork n → LegalEventsAreThoseOfRuns (network_in n) }
    ensures runs { (n : Network) → IsNetwork n → LegalRunsAreThoseOfDraws (network_in n) }
{}

/// A timer has a due time later than a bound exactly where the latest of them is later.
pub fn the_latest_due_time_decides()
    ensures { (d : Dist) → LatestDecides d }
{}

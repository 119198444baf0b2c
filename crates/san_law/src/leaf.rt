//! The laws of a leaf: its activities, its timers, the order of its instantaneous activities.

ghost use Rattle.std.specs.Prelude.{List};
ghost use Rattle.san_law.specs.Activity.{Activity, Part, AreInOrder, instants_from};
ghost use Rattle.san_law.specs.Clocks.{SteadyIsQuiet, QuietIsSteady};
ghost use Rattle.san_law.specs.Network.{Network, LeavesAreLawful};

/// What leaves do by their activities is as the law asks, whatever the draws.
#[tactic(auto, using(crate::proofs::Renewals::leaves_are_lawful))]
pub fn leaves_keep_to_themselves()
    ensures { (network : Network) → LeavesAreLawful network }
{}

/// Renewal leaves a row as it is exactly where a timer stands for each enabled activity.
#[tactic(auto, using(crate::proofs::Renewals::steady_is_quiet, crate::proofs::Renewals::quiet_is_steady))]
pub fn a_steady_leaf_is_quiet()
    ensures quiet { (part : Part) → SteadyIsQuiet part }
    ensures steady { (part : Part) → QuietIsSteady part }
{}

/// A leaf's instantaneous activities are tested by greater priority, and for equal priority by
/// number.
#[tactic(auto, using(crate::proofs::Instants::instants_are_in_order))]
pub fn greater_priority_is_first()
    ensures { (activities : List Activity) → AreInOrder (instants_from 0 activities) }
{}

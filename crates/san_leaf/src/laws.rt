//! Laws: what a block of completions is, where timers stand, and which claims fit.

ghost use Rattle.std.specs.Prelude.{◌≡◌, ◌≤◌, ℕ, Some, length, slice_get};
ghost use Rattle.san_base.specs.declared.limits.TheConstants.{MAX_HORIZON};
ghost use Rattle.san_leaf.specs.Claimed.{Claimed};
ghost use Rattle.san_leaf.specs.Fits.{Fits, KindFits, StateFits};
ghost use Rattle.san_leaf.specs.Lawful.{BlocksAreTheLaws};
ghost use Rattle.san_leaf.specs.Pieces.{opened_state};
ghost use Rattle.san_leaf.specs.Timers.{LeastTimerFits, OpensTimed, PiecesKeepTimed};
ghost use Rattle.san_net.specs.Accepted.{IsAccepted};
ghost use Rattle.san_net.specs.Laid.{IsNetwork};
ghost use Rattle.san_net.specs.Network.{Network};
ghost use Rattle.san_net.specs.declared.part.Part.{Part};

/// A block of a leaf's completions, with what it looks at and assigns, is the law's of this leaf.
#[tactic(auto, using(crate::proofs::BlockLaws::blocks_are_the_laws))]
pub fn blocks_are_the_laws()
    ensures { (p : Part) → BlocksAreTheLaws p }
{}

/// The first state of an accepted atomic's leaf fits its part.
#[tactic(auto, using(crate::proofs::FitLemmas::opened_fits))]
pub fn first_states_fit()
    ensures { (p : Part) → IsAccepted p.atomic → length p.slots ≡ length p.atomic.initial
        → StateFits p (opened_state p) }
{}

/// A claim of a network's leaf fits where its state and its kind fit the leaf's part, and its time
/// is within the longest run.
#[tactic(auto, using(crate::proofs::FitLemmas::claim_fits))]
pub fn claims_of_a_network_fit()
    ensures { (n : Network) (j : ℕ) (c : Claimed) → IsNetwork n → slice_get n.parts j ≡ Some c.part
        → StateFits c.part c.base → KindFits c.part c.kind → c.time ≤ MAX_HORIZON → Fits c }
{}

/// A leaf has timers at timed activities alone: none before its first piece, and a piece sets none
/// elsewhere. So the activity of its least timer can fire.
#[tactic(auto, using(crate::proofs::TimerLemmas::opens_timed, crate::proofs::TimerLemmas::pieces_keep_timed, crate::proofs::TimerLemmas::least_fits))]
pub fn timers_are_of_timed_activities()
    ensures opened { (p : Part) → OpensTimed p }
    ensures kept { (p : Part) → PiecesKeepTimed p }
    ensures fires { (p : Part) → LeastTimerFits p }
{}

//! Laws: what a network's activities and leaves keep to.

ghost use Rattle.std.specs.Prelude.{◌≡◌, ℕ, IsTrue, List, length};
ghost use Rattle.san_expr.specs.Concerns.{AssignsNothing, Concerns};
ghost use Rattle.san_net.specs.Completion.{completion_of};
ghost use Rattle.san_net.specs.Enabled.{enabled_of};
ghost use Rattle.san_net.specs.Accepted.{IsAccepted};
ghost use Rattle.san_net.specs.Below.{acts_below};
ghost use Rattle.san_net.specs.First.{first_of};
ghost use Rattle.san_net.specs.Leaf.{first_in, leaf_of};
ghost use Rattle.san_net.specs.Mentions.{completion_mentions, enabling_mentions, tests_mention};
ghost use Rattle.san_law.specs.Activity.{first_instant};
ghost use Rattle.san_net.specs.declared.atomic.Atomic.{Atomic};
ghost use Rattle.san_net.specs.declared.part.Part.{Part};
ghost use Rattle.san_net.specs.Laid.{IsNetwork};
ghost use Rattle.san_net.specs.Network.{Network, net_of, network_in};
ghost use Rattle.san_law.specs.Lawful.{IsLaid, IsLawful};
ghost use Rattle.san_law.specs.Network.{AllMade, Limits};
ghost use Rattle.san_net.specs.declared.activity.Activity.{Activity};

/// A test of enabling and a completion have to do with the cells that their predicates, or their
/// weights and functions, name, and with no other; what a completion doesn't assign stays. A test
/// assigns nothing.
#[tactic(auto, using(crate::proofs::ConcernLemmas::enabling_concerns, crate::proofs::ConcernLemmas::completion_concerns, crate::proofs::ConcernLemmas::enabling_reads))]
pub fn activities_concern_their_cells()
    ensures enabling { (a : Activity) → Concerns (enabling_mentions a) (enabled_of a) }
    ensures completion { (u : ℕ) (a : Activity)
        → Concerns (completion_mentions a) (completion_of u a) }
    ensures reads { (a : Activity) → AssignsNothing (enabled_of a) }
{}

/// A network's activities leave as many cells, and those that they don't assign, and have at most
/// 1,024 impulse terms: all that the law asks of them, whatever the draws.
#[tactic(auto, using(crate::proofs::MadeLemmas::all_made))]
pub fn networks_are_made()
    ensures { (n : Network) → IsNetwork n → AllMade (network_in n) }
{}

/// Whatever the draws and the limits, a network's leaves lie apart over its places and keep to
/// themselves, so that its pieces make its run.
#[tactic(auto, using(crate::proofs::LaidLemmas::laid, crate::proofs::LaidLemmas::lawful))]
pub fn networks_are_lawful()
    ensures laid { (n : Network) → IsNetwork n → (draw : ℕ → ℕ → ℕ) (limits : Limits)
        → IsLaid (net_of n draw limits) (length n.initial) }
    ensures lawful { (n : Network) → IsNetwork n → (draw : ℕ → ℕ → ℕ) (limits : Limits)
        → IsLawful (net_of n draw limits) }
{}

/// The first of an accepted atomic's instantaneous activities is the leaf's first of the law. The
/// search has to do with the cells that predicates name alone, and assigns nothing.
#[tactic(auto, using(crate::proofs::FirstLaws::first_is_first, crate::proofs::FirstLaws::first_concerns, crate::proofs::FirstLaws::first_reads))]
pub fn the_first_is_the_leafs()
    ensures first { (p : Part) (v : List ℕ) → IsAccepted p.atomic → first_in p.atomic v
        ≡ first_instant (leaf_of p) v }
    ensures concerns { (a : Atomic) → Concerns (tests_mention a) (first_of a) }
    ensures reads { (a : Atomic) → AssignsNothing (first_of a) }
{}

/// The activities of an accepted atomic name its own cells alone, so that they can be run over a
/// view of these.
#[tactic(auto, using(crate::proofs::FirstLemmas::accepted_below))]
pub fn accepted_cells_are_its_own()
    ensures { (a : Atomic) → IsAccepted a → IsTrue (acts_below a.acts (length a.initial)) }
{}

//! What a tally counts is what the law says of its network.

ghost use Rattle.std.specs.Prelude.{◌≡◌, ◌≤◌, ◌*◌, ◌∷◌, [], List, ℕ};
ghost use Rattle.san_base.specs.declared.limits.TheConstants.{MAX_EVENTS, MAX_EVENT_IMPULSES};
ghost use Rattle.san_law.specs.Net.{Net};
ghost use Rattle.san_law.specs.Network.{Limits};
ghost use Rattle.san_law.specs.Reward.{worth};
ghost use Rattle.san_law.specs.State.{State};
ghost use Rattle.san_law.specs.Step.{Event};
ghost use Rattle.san_law.specs.Tally.{impulses_in, tally_after, tally_worth};
ghost use Rattle.san_net.specs.Laid.{IsNetwork};
ghost use Rattle.san_net.specs.Network.{Network, net_of};
ghost use Rattle.san_reward.specs.Smallness.{AreRated, IsSmallWorth};
ghost use Rattle.san_reward.specs.Running.{IsOf, Running, advanced, net_in, opened, with_impulses};

/// A tally that is opened on a network counts this network's rewards, whatever the draws.
#[tactic(auto, using(crate::proofs::Sameness::opened_of))]
pub fn an_opened_tally_is_of_its_network()
    ensures { (n : Network) (draw : ℕ → ℕ → ℕ) (limits : Limits)
        → IsOf (net_of n draw limits) (opened n limits.horizon) }
{}

/// What a tally counts as time goes on, and what its rewards are worth, is what the law says of the
/// network.
#[tactic(auto, using(crate::proofs::Sameness::advance_same, crate::proofs::Sameness::worth_same))]
pub fn a_tally_counts_its_networks_rewards()
    ensures advance { (net : Net) (t : Running) → IsOf net t → (to : ℕ)
        → tally_after net t.tally t.time to [] ≡ (advanced t to).tally }
    ensures worth { (net : Net) (t : Running) → IsOf net t → (r : ℕ)
        → tally_worth net t.tally t.time r ≡ tally_worth (net_in t) t.tally t.time r }
{}

/// Impulses that are counted one after another at an event's time are what the law counts of the event.
#[tactic(auto, using(crate::proofs::Impulses::event_same))]
pub fn impulses_are_those_of_the_event()
    ensures { (net : Net) (t : Running) → IsOf net t → (e : Event) → e.time ≡ t.time
        → tally_after net t.tally t.time t.time (e ∷ []) ≡ (with_impulses t e.impulses).tally }
{}

/// The sum of a reward or of a mean is within 2^96 either way, where the events are as few as a run
/// may have and count values of terms: ten thousand of them are summed in 128 bits.
pub fn worths_are_small()
    ensures { (n : Network) (draw : ℕ → ℕ → ℕ) (limits : Limits) (opening : State) (es : List Event)
        (r : ℕ) → IsNetwork n → impulses_in es ≤ MAX_EVENTS * MAX_EVENT_IMPULSES → AreRated es
        → IsSmallWorth (worth (net_of n draw limits) r opening es) }
{}

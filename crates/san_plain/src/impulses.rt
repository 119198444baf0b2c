//! The impulses of an event.

ghost use Rattle.std.specs.Prelude.{◌≡◌, ◌+◌, ◌<◌, ◌≤◌, ◌∷◌, ◌^◌, [], All, IsTrue, Some, length, map, slice_get};
ghost use Rattle.san_base.specs.declared.limits.TheConstants.{MAX_IMPULSES};
ghost use Rattle.san_expr.specs.Below.{places_below};
ghost use Rattle.san_law.specs.Lawful.{AllBelow};
ghost use Rattle.san_law.specs.State.{gather};
ghost use Rattle.san_net.specs.Laid.{place_of, places_of};
ghost use Rattle.san_net.specs.Leaf.{impulses_in};
ghost use Rattle.san_net.specs.Network.{span_in};
ghost use Rattle.san_net.specs.declared.part.Part.{Part};
ghost use Rattle.san_reward.specs.Running.{with_impulses};
ghost use Rattle.san_plain.specs.inner.Accounts.{impulses_by};

use crate::cells::impulse_in;
use san_base::{ActId, LeafId};
use san_net::{Flat, ImpulseTerm, Part, Slot};
use san_reward::Tally;

/// Counts an impulse term, if it is of an activity.
fn count_term(tally: &mut Tally, term: &ImpulseTerm, act: u32, slots: &[Slot], marking: &[u32])
    requires reward { term.now.reward < length tally.old.spans }
    requires places { IsTrue (places_below term.now.expr (length slots.now)) }
    requires over { AllBelow (map place_of slots.now) (length marking.now) }
    requires few { tally.old.tally.impulses + length (impulses_in (term.now ∷ []) act
        (gather (map place_of slots.now) marking.now)) ≤ MAX_IMPULSES }
    ensures { tally.new ≡ with_impulses tally.old (impulses_in (term.now ∷ []) act
        (gather (map place_of slots.now) marking.now)) }
{
    if term.act == act {
        let rated = impulse_in(term, slots, marking);
        tally.impulse(term.reward, rated);
    }
}

/// Counts the impulse terms of a part's activity, by its number in the atomic.
fn count_part(tally: &mut Tally, part: &Part, act: u32, marking: &[u32])
    requires known { All (λ t. t.reward < length tally.old.spans) part.now.atomic.impulses }
    requires places { All (λ t. IsTrue (places_below t.expr (length part.now.slots)))
        part.now.atomic.impulses }
    requires over { AllBelow (places_of part.now) (length marking.now) }
    requires few { tally.old.tally.impulses + length (impulses_in part.now.atomic.impulses act
        (gather (places_of part.now) marking.now)) ≤ MAX_IMPULSES }
    ensures { tally.new ≡ with_impulses tally.old (impulses_in part.now.atomic.impulses act
        (gather (places_of part.now) marking.now)) }
{
    let slots = part.slots.as_slice();
    'terms: for (at, term) in part.atomic.get().impulses.as_slice().iter().enumerate() {
        count_term(tally, term, act, slots, marking);
    }
}

/// Counts the impulse terms of a leaf's activity.
pub(crate) fn count_impulses(
    tally: &mut Tally,
    flat: &Flat,
    leaf: LeafId,
    act: ActId,
    marking: &[u32],
)
    requires spans { tally.old.spans ≡ map (λ r. span_in r.span) flat.now.rewards }
    requires leaf { leaf.0 < length flat.now.parts }
    requires act { (p : Part) → slice_get flat.now.parts leaf.0 ≡ Some p → p.first.0 ≤ act.0 }
    requires marking { length marking.now ≡ length flat.now.initial }
    requires few { tally.old.tally.impulses
        + length (impulses_by (slice_get flat.now.parts leaf.0) act.0 marking.now) ≤ MAX_IMPULSES }
    ensures { tally.new ≡ with_impulses tally.old
        (impulses_by (slice_get flat.now.parts leaf.0) act.0 marking.now) }
{
    flat.is_network();
    let part = flat.part(leaf).get();
    count_part(tally, part, act.0 - part.first.0, marking);
}

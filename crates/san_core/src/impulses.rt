//! Counting the impulses of a piece's events.

ghost use Rattle.std.specs.Prelude.{◌≡◌, ◌≤◌, ◌<◌, ◌+◌, All, length};
ghost use Rattle.san_base.specs.declared.limits.TheConstants.{MAX_IMPULSES};
ghost use Rattle.san_leaf.specs.Events.{impulses_at};
ghost use Rattle.san_reward.specs.Running.{with_impulses};
ghost use Rattle.san_core.specs.inner.Impulses.{impulses_from};

use san_leaf::Impulse;
use san_reward::Tally;

/// Counts the impulses of one event, by its number in the piece.
fn count_event(tally: &mut Tally, impulses: &[Impulse], event: u32)
    requires rewards { All (λ x. x.reward < length tally.old.spans) (impulses_at event impulses.now) }
    requires few { tally.old.tally.impulses + length (impulses_at event impulses.now) ≤ MAX_IMPULSES }
    ensures { tally.new ≡ with_impulses tally.old (impulses_at event impulses.now) }
{
    let mut at = 0;
    'each: while at < impulses.len() {
        let impulse = impulses[at];
        if impulse.event == event {
            tally.impulse(impulse.reward, impulse.rated);
        }
        at += 1;
    }
}

/// Counts the impulses of so many of a piece's events, from the first.
pub(crate) fn count_impulses(tally: &mut Tally, impulses: &[Impulse], events: u32)
    requires rewards { All (λ x. x.reward < length tally.old.spans) (impulses_from 0 events impulses.now) }
    requires few { tally.old.tally.impulses + length (impulses_from 0 events impulses.now) ≤ MAX_IMPULSES }
    ensures { tally.new ≡ with_impulses tally.old (impulses_from 0 events impulses.now) }
{
    let mut event = 0;
    'events: while event < events {
        count_event(tally, impulses, event);
        event += 1;
    }
}

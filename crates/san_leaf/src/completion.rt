//! A completion over a leaf's cells, which a trap takes back, and its impulses.

ghost use Rattle.std.specs.Prelude.{◌≡◌, ◌≤◌, ◌<◌, ◌+◌, ◌*◌, Ok, OnOk, IsTrue, length, slice_index, All};
ghost use Rattle.san_base.specs.declared.limits.TheConstants.{MAX_DRAWS};
ghost use Rattle.san_clock.specs.Rows.{counted_by};
ghost use Rattle.san_draw.specs.Key.{draw_of};
ghost use Rattle.san_expr.specs.Below.{places_below};
ghost use Rattle.san_expr.specs.Meets.{Meets};
ghost use Rattle.san_net.specs.Accepted.{IsAccepted};
ghost use Rattle.san_leaf.specs.Blocks.{picked_of};
ghost use Rattle.san_leaf.specs.inner.ViewStates.{view_state_of};
ghost use Rattle.san_leaf.specs.inner.Impulses.{Records};

use crate::leaf_view::{LeafView, View};
use crate::recorder::Recorder;
use san_base::{MAX_ACTS, NoMemory, Trap, rated};
use san_clock::{Row, complete_act};
use san_draw::DrawSource;
use san_expr::eval;
use san_mark::Overlay;
use san_net::{ImpulseTerm, Part};

/// Completes an activity of a part with its next case draw, and answers the case. A trap takes its
/// assignments back.
pub(crate) fn complete_or_back<V: View, D: DrawSource>(
    part: &Part,
    draws: &mut D,
    act: u32,
    row: &mut Row,
    view: &mut LeafView<'_, V>,
    held: &mut Overlay,
) -> Result<u32, Trap>
    requires accepted { IsAccepted part.now.atomic }
    requires cells { length view.old.places ≡ length part.now.atomic.initial }
    requires sized { length held.old ≡ length view.old.places }
    requires act { act < length part.now.atomic.acts }
    requires cases { length row.old.cases ≡ length part.now.atomic.acts }
    requires streams { 2 * (part.now.first.0 + length part.now.atomic.acts) ≤ D.streams draws.old }
    requires small { part.now.first.0 + length part.now.atomic.acts ≤ MAX_ACTS }
    requires number { slice_index row.old.cases act + 1 < MAX_DRAWS }
    ensures meets { Meets (view_state_of view.old) (view_state_of view.new) (picked_of (draw_of (D.seed
        draws.old)) part.now act row.old.cases) (Ok result) }
    ensures row { row.new ≡ counted_by result row.old act }
    ensures sized { length held.new ≡ length held.old }
    ensures draws { draws.new ≡ draws.old }
{
    held.take_over(&view.own);
    match complete_act(draws, part, act, row, view) {
        Ok(case) => Ok(case),
        Err(trap) => {
            view.own.take_over(held);
            Err(trap)
        }
    }
}

/// Records the impulses of a completion in the values that it reached.
pub(crate) fn record_impulses<V: View>(
    terms: &[ImpulseTerm],
    act: u32,
    recorder: &mut Recorder,
    view: &mut LeafView<'_, V>,
) -> Result<(), NoMemory>
    requires { All (λ t. IsTrue (places_below t.expr (length view.old.places))) terms.now }
    ensures recorded { OnOk result (Records recorder.old recorder.new (view_state_of view.old) (view_state_of view.new)
        act terms.now) }
    ensures kept { (view_state_of view.new).kept ≡ (view_state_of view.old).kept }
    ensures places { (view_state_of view.new).places ≡ (view_state_of view.old).places }
{
    for (at, term) in terms.iter().enumerate() {
        if term.act == act {
            let rated = rated(eval(&term.expr, view));
            recorder.impulse(term.reward, rated)?;
        }
    }
    Ok(())
}

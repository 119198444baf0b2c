//! The completion of a leaf's activity with its next case draw.

ghost use Rattle.std.specs.Prelude.{◌≡◌, ◌≢◌, ◌≤◌, ◌<◌, ◌+◌, ◌*◌, Some, length, slice_get, slice_index};
ghost use Rattle.san_base.specs.declared.limits.TheConstants.{MAX_DRAWS};
ghost use Rattle.san_clock.specs.Rows.{counted_by};
ghost use Rattle.san_draw.specs.Key.{draw_of};
ghost use Rattle.san_expr.specs.Meets.{Meets};
ghost use Rattle.san_net.specs.Accepted.{IsAccepted};
ghost use Rattle.san_net.specs.Completion.{completion_of};
ghost use Rattle.san_net.specs.Instants.{Named};

use crate::row::Row;
use san_base::{MAX_ACTS, Trap};
use san_draw::DrawSource;
use san_expr::Cells;
use san_net::{Part, complete};

/// The case draw with a number of an activity with so many cases. The only case is chosen by every
/// draw, so that none is made for it.
fn draw_for<D: DrawSource>(draws: &mut D, cases: usize, stream: u32, number: u64) -> u64
    requires stream { stream < D.streams draws.old }
    requires number { number < MAX_DRAWS }
    ensures one { cases ≡ 1 → result ≡ 0 }
    ensures more { cases ≢ 1 → result ≡ draw_of (D.seed draws.old) stream number }
    ensures draws { draws.new ≡ draws.old }
{
    if cases == 1 {
        0
    } else {
        draws.draw(stream, number)
    }
}

/// Completes an activity of a leaf over a view of its cells, with its next case draw: its case.
/// After a trap the view holds the assignments made before it, and the row is as it was.
pub fn complete_act<V: Cells, D: DrawSource>(
    draws: &mut D,
    part: &Part,
    act: u32,
    row: &mut Row,
    view: &mut V,
) -> Result<u32, Trap>
    requires accepted { IsAccepted part.now.atomic }
    requires cells { (V.view_state view.old).places ≡ length part.now.atomic.initial }
    requires act { act < length part.now.atomic.acts }
    requires cases { length row.old.cases ≡ length part.now.atomic.acts }
    requires streams { 2 * (part.now.first.0 + length part.now.atomic.acts) ≤ D.streams draws.old }
    requires small { part.now.first.0 + length part.now.atomic.acts ≤ MAX_ACTS }
    requires number { slice_index row.old.cases act + 1 < MAX_DRAWS }
    ensures done { (a : Named) → slice_get part.now.atomic.acts act ≡ Some a → Meets (V.view_state
        view.old) (V.view_state view.new) (completion_of (draw_of (D.seed draws.old) (2
        * (part.now.first.0 + act) + 1) (slice_index row.old.cases act)) a.1) result }
    ensures row { row.new ≡ counted_by result row.old act }
    ensures draws { draws.new ≡ draws.old }
{
    let acts = part.atomic.get().acts.as_slice();
    let activity = &acts[act as usize].1;
    let stream = 2 * (part.first.0 + act) + 1;
    let u = draw_for(draws, activity.cases.len(), stream, row.next_case(act));
    let case = complete(activity, u, view);
    if case.is_ok() {
        row.count_case(act);
    }
    case
}

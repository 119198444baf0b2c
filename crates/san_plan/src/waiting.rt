//! What a leaf waits for that has nothing to do.

ghost use Rattle.std.specs.Prelude.{◌≡◌, ◌≤◌, ◌+◌, IfSome, length};
ghost use Rattle.std.specs.Option.{option_map};
ghost use Rattle.san_base.specs.declared.limits.TheConstants.{MAX_ACTS, MAX_HORIZON};
ghost use Rattle.san_book.specs.Plans.{chosen, in_time};
ghost use Rattle.san_plan.specs.Plans.{IsFit, RowStands, plan_in};
ghost use Rattle.san_plan.specs.inner.Waits.{Fires, sooner, waits};

use crate::plan::{Plan, fired, settled};
use san_ahead::Ahead;
use san_base::Tick;
use san_clock::least_of;
use san_leaf::LeafState;
use san_net::Part;

/// What is up to the horizon.
fn in_time(horizon: Tick, due: Option<(u64, u32)>) -> Option<(u64, u32)>
    ensures { result ≡ in_time horizon.0 due }
{
    match due {
        Some(due) if due.0 <= horizon.0 => Some(due),
        _ => None,
    }
}

/// The leaf's timer fires, or the leaf settles at another leaf's version that comes before it.
fn sooner(part: &Part, due: (u64, u32), version: (u64, u32)) -> Plan
    requires due { Fires part.now due }
    requires version { version.0 ≤ MAX_HORIZON }
    ensures is { plan_in part.now.first.0 result ≡ sooner part.now.leaf.0 due version }
    ensures fits { IsFit part.now result }
{
    if version.0 < due.0 || version.0 == due.0 && version.1 < part.leaf.0 {
        settled(Tick(version.0))
    } else {
        fired(part, due)
    }
}

/// The sooner of the leaf's own timer and another leaf's version, where there is one.
fn chosen(part: &Part, due: Option<(u64, u32)>, version: Option<(u64, u32)>) -> Option<Plan>
    requires due { IfSome due (Fires part.now) }
    requires version { IfSome version (λ v. v.0 ≤ MAX_HORIZON) }
    ensures is { option_map (plan_in part.now.first.0) result ≡ chosen part.now.leaf.0 due version }
    ensures fits { IfSome result (IsFit part.now) }
{
    match (due, version) {
        (None, None) => None,
        (Some(due), None) => Some(fired(part, due)),
        (None, Some(version)) => Some(settled(Tick(version.0))),
        (Some(due), Some(version)) => Some(sooner(part, due, version)),
    }
}

/// What a leaf waits for, from a time on and in a state: its least timer, or what another leaf writes
/// before it is due.
pub(crate) fn waits(
    ahead: &Ahead,
    part: &Part,
    horizon: Tick,
    after: Tick,
    state: &LeafState,
) -> Option<Plan>
    requires row { RowStands part.now state.now.row }
    requires few { part.now.first.0 + length part.now.atomic.acts ≤ MAX_ACTS }
    requires horizon { horizon.0 ≤ MAX_HORIZON }
    ensures is { option_map (plan_in part.now.first.0) result ≡ waits part.now ahead.now.lines
        horizon.0 after.0 state.now }
    ensures fits { IfSome result (IsFit part.now) }
{
    let due = in_time(horizon, least_of(&state.row));
    let next = ahead.next_version(part.leaf, after, part.slots.as_slice());
    let version = in_time(horizon, next);
    chosen(part, due, version)
}

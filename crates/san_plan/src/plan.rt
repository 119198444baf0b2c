//! A piece that a leaf may come to.

ghost use Rattle.std.specs.Prelude.{◌≡◌, ◌≤◌, ℕ};
ghost use Rattle.san_base.specs.declared.limits.TheConstants.{MAX_HORIZON};
ghost use Rattle.san_law.specs.Piece.{Fire, Refresh, Settle};
ghost use Rattle.san_net.specs.declared.part.Part as parts;
ghost use Rattle.san_plan.specs.Plans.{IsFit, plan_in};
ghost use Rattle.san_plan.specs.inner.Waits.{Fires};

use san_base::{ActId, Kind, Tick};
use san_net::Part;

/// The kind and the time of a piece that a leaf may come to.
#[derive(Clone, Copy, Debug, PartialEq, Eq)]
pub struct Plan {
    pub kind: Kind,
    pub time: Tick,
}

/// A timer of a leaf fires when it is due; the timer's activity by its number in the leaf.
pub(crate) fn fired(part: &Part, due: (u64, u32)) -> Plan
    requires { Fires part.now due }
    ensures is { plan_in part.now.first.0 result ≡ record { kind = Fire due.1; time = due.0 } }
    ensures fits { IsFit part.now result }
{
    Plan {
        kind: Kind::Fire(ActId(part.first.0 + due.1)),
        time: Tick(due.0),
    }
}

/// A leaf settles.
pub(crate) fn settled(time: Tick) -> Plan
    requires { time.0 ≤ MAX_HORIZON }
    ensures is { (first : ℕ) → plan_in first result ≡ record { kind = Settle; time = time.0 } }
    ensures fits { (p : parts.Part) → IsFit p result }
{
    Plan {
        kind: Kind::Settle,
        time,
    }
}

/// A leaf renews its timers.
pub(crate) fn renewed(time: Tick) -> Plan
    requires { time.0 ≤ MAX_HORIZON }
    ensures is { (first : ℕ) → plan_in first result ≡ record { kind = Refresh; time = time.0 } }
    ensures fits { (p : parts.Part) → IsFit p result }
{
    Plan {
        kind: Kind::Refresh,
        time,
    }
}

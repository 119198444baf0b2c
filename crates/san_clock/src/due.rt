//! The least timer of a leaf.

ghost use Rattle.std.specs.Prelude.{◌≡◌, ◌≤◌, length};
ghost use Rattle.std.specs.Option.{option_map};
ghost use Rattle.san_base.specs.declared.limits.TheConstants.{MAX_ACTS};
ghost use Rattle.san_clock.specs.Rows.{timer_in};
ghost use Rattle.san_law.specs.Net.{and_timer, least_timer};

use crate::row::{Row, Timer};
use san_base::MAX_ACTS;

/// The timer of an activity before the least of those after it.
fn and_timer(act: u32, timer: Option<Timer>, rest: Option<(u64, u32)>) -> Option<(u64, u32)>
    ensures { result ≡ and_timer act (option_map timer_in timer) rest }
{
    match timer {
        Some(timer) => match rest {
            Some(least) if least.0 < timer.due => Some(least),
            _ => Some((timer.due, act)),
        },
        None => rest,
    }
}

/// The least timer of a row: when it is due, and its activity; for equal times the first activity's.
pub fn least_of(row: &Row) -> Option<(u64, u32)>
    requires { length row.now.timers ≤ MAX_ACTS }
    ensures { result ≡ least_timer row.now }
{
    let timers = row.timers();
    let mut least = None;
    let mut k = timers.len();
    'acts: while k > 0 {
        k -= 1;
        least = and_timer(k as u32, timers[k], least);
    }
    least
}

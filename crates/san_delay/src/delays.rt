//! The delay of a distribution for a draw, and the longest over all draws.

ghost use Rattle.std.specs.Prelude.{IfOk, IsTrue};
ghost use Rattle.san_delay.specs.Longest.{longest_of};
ghost use Rattle.san_delay.specs.Sound.{IsDelay, IsSoundDelay};
ghost use Rattle.san_expr.specs.Below.{dist_below};
ghost use Rattle.san_expr.specs.Delay.{delay_of};
ghost use Rattle.san_expr.specs.Meets.{Evaluates};

use crate::{det, geometric, uniform, weighted};
use san_base::Trap;
use san_expr::{Dist, Marked};

/// The delay of a distribution, in ticks, for a draw. A geometric delay is the least number of
/// ticks whose chance to go on, out of 2^64, is at most the draw. `Trap::Delay` is answered after the
/// traps of the expressions (own rules).
pub fn delay<V: Marked>(d: &Dist, u: u64, view: &mut V) -> Result<u64, Trap>
    requires sound { IsSoundDelay d.now }
    requires places { IsTrue (dist_below d.now (V.view_state view.old).places) }
    ensures value { Evaluates (V.view_state view.old) (V.view_state view.new) (delay_of d.now u) result }
    ensures within { IfOk result IsDelay }
{
    match d {
        Dist::Det(e) => det::delay(e, view),
        Dist::Uniform(low, high) => uniform::delay(low, high, u, view),
        Dist::Geom(p, q) => Ok(geometric::delay(*p, *q, u)),
        Dist::Table(entries) => Ok(weighted::delay(entries.as_slice(), u)),
    }
}

/// The longest delay of a distribution over all draws, in ticks.
pub fn longest<V: Marked>(d: &Dist, view: &mut V) -> Result<u64, Trap>
    requires sound { IsSoundDelay d.now }
    requires places { IsTrue (dist_below d.now (V.view_state view.old).places) }
    ensures value { Evaluates (V.view_state view.old) (V.view_state view.new) (longest_of d.now) result }
    ensures within { IfOk result IsDelay }
{
    match d {
        Dist::Det(e) => det::delay(e, view),
        Dist::Uniform(low, high) => uniform::longest(low, high, view),
        Dist::Geom(p, q) => Ok(geometric::longest(*p, *q)),
        Dist::Table(entries) => Ok(weighted::longest(entries.as_slice())),
    }
}

//! The renewal of one activity's timer.

ghost use Rattle.std.specs.Prelude.{◌≡◌, ◌≤◌, ◌<◌, ℕ, List, length, not, ◌+◌, IfOk, IsTrue, Ok, Err, Some, Result};
ghost use Rattle.std.specs.Option.{option_map};
ghost use Rattle.san_base.specs.declared.ending.Trap.{Trap};
ghost use Rattle.san_base.specs.declared.limits.TheConstants.{MAX_DRAWS, MAX_TIME};
ghost use Rattle.san_clock.specs.Rows.{timer_in};
ghost use Rattle.san_clock.specs.inner.Clocks.{anew_by, clock_by, enabled_by, pair_below, renewed_in, timed_at};
ghost use Rattle.san_delay.specs.Sound.{IsSoundDelay};
ghost use Rattle.san_draw.specs.Key.{draw_of};
ghost use Rattle.san_expr.specs.Below.{dist_below};
ghost use Rattle.san_expr.specs.Delay.{delay_of};
ghost use Rattle.san_law.specs.Clocks as law;
ghost use Rattle.san_law.specs.Clocks.{activated, kept_by, paired_by, same_list};
ghost use Rattle.san_net.specs.Accepted.{IsAcceptedKind};
ghost use Rattle.san_net.specs.Below.{activity_below};
ghost use Rattle.san_net.specs.Leaf.{pair_in};

use crate::ask::{delay_in, holds, is_enabled};
use crate::renewal::Renewal;
use crate::row::{Clock, Timer};
use crate::view::PlainView;
use san_base::Trap;
use san_draw::DrawSource;
use san_expr::{Dist, Expr};
use san_net::{ActKind, Activity};

/// Whether the activation predicate holds; without a pair it counts as not held.
fn activation<V: PlainView>(pair: &Option<(Expr, Expr)>, view: &mut V) -> Result<bool, Trap>
    requires { IsTrue (pair_below pair.now (length (V.values view.old))) }
    ensures held { (due n : ℕ) → timed_at due n result
        ≡ paired_by due n (V.values view.old) (pair_in pair.now) }
    ensures same { V.values view.new ≡ V.values view.old }
{
    match pair {
        Some(pair) => holds(&pair.0, view),
        None => Ok(false),
    }
}

/// The delay draw with a number. A fixed delay is the same for every draw, so that none is made for
/// it.
fn delay_draw<D: DrawSource>(draws: &mut D, delay: &Dist, stream: u32, n: u64) -> u64
    requires stream { stream < D.streams draws.old }
    requires number { n < MAX_DRAWS }
    ensures alike { (values : List ℕ) → delay_of delay.now result values
        ≡ delay_of delay.now (draw_of (D.seed draws.old) stream n) values }
    ensures draws { draws.new ≡ draws.old }
{
    match delay {
        Dist::Det(_) => 0,
        _ => draws.draw(stream, n),
    }
}

/// A timer anew: the delay with delay draw n, then the activation predicate (own rules).
fn activate<V: PlainView, D: DrawSource>(
    renewal: &Renewal<'_>,
    draws: &mut D,
    stream: u32,
    delay: &Dist,
    pair: &Option<(Expr, Expr)>,
    n: u64,
    view: &mut V,
) -> Result<Clock, Trap>
    requires sound { IsSoundDelay delay.now }
    requires delay { IsTrue (dist_below delay.now (length (V.values view.old))) }
    requires pair { IsTrue (pair_below pair.now (length (V.values view.old))) }
    requires stream { stream < D.streams draws.old }
    requires number { n < MAX_DRAWS }
    requires time { renewal.now.time < MAX_TIME }
    ensures clock { clock_by result
        ≡ activated (draw_of (D.seed draws.old) stream) renewal.now.time (V.values view.old) (λ u
        v. (delay_of delay.now u v).answer) (pair_in pair.now) n }
    ensures number { IfOk result (λ c. c.1 ≤ n + 1) }
    ensures same { V.values view.new ≡ V.values view.old }
    ensures draws { draws.new ≡ draws.old }
{
    let u = delay_draw(draws, delay, stream, n);
    let ticks = delay_in(renewal.tables, delay, u, view)?;
    let held = activation(pair, view)?;
    let due = renewal.time + ticks;
    Ok((Some(Timer { due, held }), n + 1))
}

/// Whether a timer with a pair is to be activated anew: its activation predicate held, some value
/// of its leaf differs from those that were last seen, and the reactivation predicate holds now.
fn is_due_anew<V: PlainView>(
    timer: Timer,
    pair: &Option<(Expr, Expr)>,
    changed: bool,
    view: &mut V,
) -> Result<bool, Trap>
    requires { IsTrue (pair_below pair.now (length (V.values view.old))) }
    ensures anew { (seen : List ℕ) (n : ℕ) (go : Result law.Clock Trap) → changed
        ≡ not (same_list seen (V.values view.old)) → anew_by result (Some timer, n) go
        ≡ kept_by seen (V.values view.old) (timer_in timer) n (pair_in pair.now) go }
    ensures same { V.values view.new ≡ V.values view.old }
{
    match pair {
        Some(pair) => {
            if timer.held && changed {
                holds(&pair.1, view)
            } else {
                Ok(false)
            }
        }
        None => Ok(false),
    }
}

/// The clock of an enabled timed activity.
fn keep_or_activate<V: PlainView, D: DrawSource>(
    renewal: &Renewal<'_>,
    draws: &mut D,
    stream: u32,
    delay: &Dist,
    pair: &Option<(Expr, Expr)>,
    clock: Clock,
    view: &mut V,
) -> Result<Clock, Trap>
    requires sound { IsSoundDelay delay.now }
    requires delay { IsTrue (dist_below delay.now (length (V.values view.old))) }
    requires pair { IsTrue (pair_below pair.now (length (V.values view.old))) }
    requires stream { stream < D.streams draws.old }
    requires number { clock.1 < MAX_DRAWS }
    requires time { renewal.now.time < MAX_TIME }
    ensures clock { (seen : List ℕ) → renewal.now.changed
        ≡ not (same_list seen (V.values view.old)) → clock_by result
        ≡ enabled_by seen (V.values view.old) (option_map timer_in clock.0) clock.1 (pair_in
        pair.now) (activated (draw_of (D.seed draws.old) stream) renewal.now.time (V.values
        view.old) (λ u v. (delay_of delay.now u v).answer) (pair_in pair.now) clock.1) }
    ensures number { IfOk result (λ c. c.1 ≤ clock.1 + 1) }
    ensures same { V.values view.new ≡ V.values view.old }
    ensures draws { draws.new ≡ draws.old }
{
    let anew = match clock.0 {
        Some(timer) => is_due_anew(timer, pair, renewal.changed, view),
        None => Ok(true),
    };
    match anew {
        Ok(true) => activate(renewal, draws, stream, delay, pair, clock.1, view),
        Ok(false) => Ok(clock),
        Err(trap) => Err(trap),
    }
}

/// One activity's renewal: a timer is dropped where the activity isn't enabled, made where there is
/// none, and made anew by its pair (own rules, after Sanders and Meyer's reactivation).
pub(crate) fn renew_act<V: PlainView, D: DrawSource>(
    renewal: &Renewal<'_>,
    draws: &mut D,
    stream: u32,
    activity: &Activity,
    clock: Clock,
    view: &mut V,
) -> Result<Clock, Trap>
    requires accepted { IsAcceptedKind activity.now.kind }
    requires places { IsTrue (activity_below activity.now (length (V.values view.old))) }
    requires stream { stream < D.streams draws.old }
    requires number { clock.1 < MAX_DRAWS }
    requires time { renewal.now.time < MAX_TIME }
    ensures clock { (seen : List ℕ) → renewal.now.changed
        ≡ not (same_list seen (V.values view.old)) → clock_by result
        ≡ renewed_in (draw_of (D.seed draws.old) stream) renewal.now.time seen (V.values view.old)
        activity.now clock }
    ensures number { IfOk result (λ c. c.1 ≤ clock.1 + 1) }
    ensures same { V.values view.new ≡ V.values view.old }
    ensures draws { draws.new ≡ draws.old }
{
    match &activity.kind {
        ActKind::Timed { delay, pair } => match is_enabled(activity, view) {
            Ok(true) => keep_or_activate(renewal, draws, stream, delay, pair, clock, view),
            Ok(false) => Ok((None, clock.1)),
            Err(trap) => Err(trap),
        },
        ActKind::Instant { .. } => Ok(clock),
    }
}

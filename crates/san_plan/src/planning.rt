//! The piece that a leaf comes to next.

ghost use Rattle.std.specs.Prelude.{◌≡◌, ◌≤◌, ◌||◌, [], IfSome};
ghost use Rattle.std.specs.Option.{option_map};
ghost use Rattle.san_base.specs.declared.limits.TheConstants.{MAX_HORIZON};
ghost use Rattle.san_book.specs.Chains.{chain_of};
ghost use Rattle.san_book.specs.Plans.{is_leaf};
ghost use Rattle.san_core.specs.Machines.{core_in};
ghost use Rattle.san_decide.specs.Booked.{part_at};
ghost use Rattle.san_law.specs.Core.{leaf_of};
ghost use Rattle.san_law.specs.Order.{flag};
ghost use Rattle.san_plan.specs.Plans.{IsFit, IsPlannable, RowStands, plan_at, plan_in};
ghost use Rattle.san_plan.specs.inner.Waits.{comes_after, comes_first};

use crate::plan::{Plan, renewed, settled};
use crate::waiting::waits;
use san_ahead::Ahead;
use san_base::{Kind, LeafId, Tick};
use san_core::Machine;
use san_leaf::Piece;
use san_turn::Order;

/// What a leaf comes to after a piece: nothing after a trap; where there was more to do, it goes on;
/// after a renewal it waits, and after other pieces it renews its timers.
fn comes_after(ahead: &Ahead, horizon: Tick, piece: &Piece) -> Option<Plan>
    requires row { RowStands piece.now.part piece.now.outcome.state.row }
    requires horizon { horizon.0 ≤ MAX_HORIZON }
    ensures is { option_map (plan_in piece.now.part.first.0) result ≡ comes_after ahead.now.lines
        horizon.0 piece.now }
    ensures fits { IfSome result (IsFit piece.now.part) }
{
    piece.fits();
    let outcome = piece.outcome();
    if outcome.fault.is_some() {
        return None;
    }
    let time = piece.time();
    if outcome.more {
        return Some(settled(time));
    }
    match piece.kind() {
        Kind::Refresh => waits(
            ahead,
            piece.part().get(),
            horizon,
            time,
            outcome.state.get(),
        ),
        Kind::Fire(_) | Kind::Settle => Some(renewed(time)),
    }
}

/// Whether a leaf goes on or is unsettled.
fn settles(order: &Order, leaf: LeafId) -> bool
    ensures { result ≡ (is_leaf leaf.0 order.now.order.going || flag order.now.order.unsettled leaf.0) }
{
    order.is_going(leaf) || order.is_unsettled(leaf)
}

/// What a leaf comes to of which nothing is made ahead: it settles, or renews its timers, or waits.
fn comes_first(machine: &Machine, ahead: &Ahead, leaf: LeafId) -> Option<Plan>
    requires plannable { IsPlannable machine.now ahead.now leaf.0 }
    requires none { chain_of ahead.now.chains leaf.0 ≡ [] }
    ensures is { option_map (plan_in (part_at machine.now.network leaf.0).first.0) result ≡ comes_first
        leaf.0 (part_at machine.now.network leaf.0) ahead.now.lines machine.now.limits.horizon.0
        (core_in machine.now).order (leaf_of (core_in machine.now) leaf.0) }
    ensures fits { IfSome result (IsFit (part_at machine.now.network leaf.0)) }
{
    machine.follows();
    machine.network().is_network();
    let order = machine.order();
    let time = order.time();
    if settles(order, leaf) {
        return Some(settled(time));
    }
    if order.is_stale(leaf) {
        return Some(renewed(time));
    }
    waits(
        ahead,
        machine.network().part(leaf).get(),
        machine.limits().horizon,
        time,
        machine.state(leaf).get(),
    )
}

/// The piece that a leaf comes to next: by the last one that was made ahead, or else by what is
/// committed.
pub fn next_plan(machine: &Machine, ahead: &Ahead, leaf: LeafId) -> Option<Plan>
    requires { IsPlannable machine.now ahead.now leaf.0 }
    ensures is { option_map (plan_in (part_at machine.now.network leaf.0).first.0) result ≡ plan_at
        machine.now ahead.now leaf.0 }
    ensures fits { IfSome result (IsFit (part_at machine.now.network leaf.0)) }
{
    machine.follows();
    machine.network().is_network();
    match ahead.last(leaf) {
        Some(piece) => comes_after(ahead, machine.limits().horizon, piece),
        None => comes_first(machine, ahead, leaf),
    }
}

//! The order of needs.

ghost use Rattle.std.specs.Prelude.{◌≡◌, ◌↔◌, ◌<◌, ℕ, All, IfOk, IsTrue, Some, length, map};
ghost use Rattle.san_law.specs.Network.{Limits};
ghost use Rattle.san_law.specs.Order.{flag, going_after, need_of};
ghost use Rattle.san_net.specs.Network.{net_of};
ghost use Rattle.san_turn.specs.Changes.{opened, after_taking};
ghost use Rattle.san_turn.specs.Needs.{need_in};
ghost use Rattle.std.specs.Option.{option_map};

use crate::marks::{copy_flags, first, is_up, same_flags, spread};
use crate::need::{Need, Taken};
use crate::timers::Timers;
use san_base::{Kind, LeafId, NoMemory, Tick};
use san_net::Flat;
use san_winner::Flags;
use std::alloc::Global;
use std::marker::Model;

/// Which leaves have something to do: the one whose last piece had more, the unsettled and the
/// stale ones, and those whose timers are due up to the horizon.
#[derive(Debug, Drop)]
pub struct Order {
    going: Option<LeafId>,
    unsettled: Flags,
    stale: Flags,
    timers: Timers,
    time: Tick,
    horizon: Tick,
}

impl Model for Order {
    ghost use Rattle.std.specs.Option.{option_map};
    ghost use Rattle.san_turn.specs.Changes.{OrderValue};
    ghost use Rattle.san_turn.specs.inner.Ordered.{HasEachLeaf};

    ghost Value = { OrderValue };

    ghost view = { λ o. record {
      order = record {
        going = option_map (λ leaf. leaf.0) o.going;
        unsettled = o.unsettled;
        stale = o.stale;
        dues = o.timers.dues;
        time = o.time.0;
      };
      firsts = o.timers.firsts;
      horizon = o.horizon.0;
    } };

    ghost invariant = { λ o. HasEachLeaf o.unsettled o.stale o.timers };
}

/// A leaf goes on where its piece had more.
fn going_after(leaf: LeafId, more: bool) -> Option<LeafId>
    ensures { option_map (λ going. going.0) result ≡ going_after leaf.0 more }
{
    if more { Some(leaf) } else { None }
}

impl Order {
    /// The order at time 0: every leaf is unsettled and stale, and none has a timer.
    pub fn open(alloc: Global, flat: &Flat, horizon: Tick) -> Result<Order, NoMemory>
        ensures { IfOk result (λ o. (draw : ℕ → ℕ → ℕ) (limits : Limits) → o
            ≡ opened (net_of flat.now draw limits) flat.now.parts horizon.0) }
    {
        let leaves = flat.leaves() as usize;
        let unsettled = Flags::open(alloc, leaves)?;
        let stale = Flags::open(alloc, leaves)?;
        let timers = Timers::open(alloc, flat)?;
        Ok(Order {
            going: None,
            unsettled,
            stale,
            timers,
            time: Tick(0),
            horizon,
        })
    }

    /// The piece that comes next: the going leaf settles; else the least unsettled one; else the
    /// least stale one is refreshed; else the least timer up to the horizon fires.
    pub fn need(&self) -> Need
        ensures { result ≡ need_in self.now.firsts (need_of self.now.horizon self.now.order) }
    {
        if let Some(leaf) = self.going {
            return Need::Settle(leaf);
        }
        if let Some(leaf) = first(&self.unsettled) {
            return Need::Settle(leaf);
        }
        if let Some(leaf) = first(&self.stale) {
            return Need::Refresh(leaf);
        }
        match self.timers.least() {
            Some(due) if due.time.0 <= self.horizon.0 => Need::Fire(due.leaf, due.act, due.time),
            _ => Need::End,
        }
    }

    /// The time of the last piece that was taken, in ticks.
    pub fn time(&self) -> Tick
        ensures { result.0 ≡ self.now.order.time }
    {
        self.time
    }

    /// Whether this leaf's last piece had more.
    pub fn is_going(&self, leaf: LeafId) -> bool
        ensures { IsTrue result ↔ (self.now.order.going ≡ Some leaf.0) }
    {
        match self.going {
            Some(going) => going.0 == leaf.0,
            None => false,
        }
    }

    /// Whether a leaf is unsettled.
    pub fn is_unsettled(&self, leaf: LeafId) -> bool
        ensures { result ≡ flag self.now.order.unsettled leaf.0 }
    {
        (leaf.0 as usize) < self.timers.len() && is_up(&self.unsettled, leaf.0 as usize)
    }

    /// Whether a leaf is stale.
    pub fn is_stale(&self, leaf: LeafId) -> bool
        ensures { result ≡ flag self.now.order.stale leaf.0 }
    {
        (leaf.0 as usize) < self.timers.len() && is_up(&self.stale, leaf.0 as usize)
    }

    /// Takes the changes of a leaf's piece.
    pub fn took(&mut self, flat: &Flat, leaf: LeafId, taken: &Taken)
        requires order { self.old.firsts ≡ map (λ p. p.first.0) flat.now.parts }
        requires leaf { leaf.0 < length flat.now.parts }
        requires written { All (λ place. place.0 < length flat.now.initial) taken.now.written.items }
        ensures { (draw : ℕ → ℕ → ℕ) (limits : Limits)
            → self.new ≡ after_taking (net_of flat.now draw limits) self.old leaf.0 taken.now }
    {
        self.time = taken.time;
        self.timers.set(leaf, taken.due);
        match taken.kind {
            Kind::Refresh => self.stale.set(leaf.0 as usize, false),
            Kind::Fire(_) | Kind::Settle => {
                self.going = going_after(leaf, taken.more);
                spread(flat, &taken.written, leaf, false, &mut self.unsettled);
                spread(flat, &taken.written, leaf, true, &mut self.stale);
            }
        }
    }

    /// An equal order.
    pub fn copy(&self, alloc: Global) -> Result<Order, NoMemory>
        ensures { IfOk result (λ o. o ≡ self.now) }
    {
        let leaves = self.timers.len();
        let unsettled = copy_flags(alloc, &self.unsettled, leaves)?;
        let stale = copy_flags(alloc, &self.stale, leaves)?;
        let timers = self.timers.copy(alloc)?;
        Ok(Order {
            going: self.going,
            unsettled,
            stale,
            timers,
            time: self.time,
            horizon: self.horizon,
        })
    }

    /// Whether both are equal.
    pub fn same(&self, other: &Order) -> bool
        ensures { IsTrue result ↔ (self.now ≡ other.now) }
    {
        let leaves = self.timers.len();
        self.going == other.going
            && self.time == other.time
            && self.horizon == other.horizon
            && self.timers.same(&other.timers)
            && same_flags(&self.unsettled, &other.unsettled, leaves)
            && same_flags(&self.stale, &other.stale, leaves)
    }
}

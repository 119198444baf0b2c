//! Geometric delays by tables that are kept, so that a draw searches in place of counting.

ghost use Rattle.std.specs.Prelude.{◌≡◌, ◌≤◌, IfOk, IfSome, IsTrue};
ghost use Rattle.san_delay.specs.Sound.{IsChance, IsDelay, IsSoundDelay};
ghost use Rattle.san_expr.specs.Below.{dist_below};
ghost use Rattle.san_expr.specs.Delay.{delay_of, geometric};
ghost use Rattle.san_expr.specs.Meets.{Evaluates};

use crate::delays::delay;
use crate::geometric;
use crate::geometric::{GeometricTable, MAX_PARTS};
use san_base::{NoMemory, Trap};
use san_expr::{Dist, Marked};
use std::alloc::Global;

/// The room of all tables together, in chances of 8 bytes each.
const ROOM: usize = 3_400_000;

/// What a table takes beside its chances, in chances.
const HEAD: usize = 16;

/// The pairs p, q with p from 1 to q and q up to `MAX_PARTS`.
const PAIRS: usize = 500_500;

/// The tables of geometric distributions. They take at most 32 MB: a delay whose table finds no room
/// is counted anew at each draw.
#[derive(Debug, Drop)]
pub struct DelayTables {
    tables: Vec<GeometricTable>,
    /// The index of a pair's table stands in its slot, the first from the pair's own on that is its
    /// or free.
    index: Vec<u32>,
}

/// The number of a pair.
fn pair(p: u32, q: u32) -> usize
    requires { IsChance p q }
{
    (q * (q - 1) / 2 + (p - 1)) as usize
}

fn is_chance(p: u32, q: u32) -> bool
    ensures { IsTrue result → IsChance p q }
{
    1 <= p && p <= q && q <= MAX_PARTS
}

impl DelayTables {
    /// Keeps the tables of these distributions, in their order, as far as there is room.
    pub fn open(alloc: Global, dists: &[&Dist]) -> Result<DelayTables, NoMemory> {
        DelayTables::within(alloc, dists, ROOM)
    }

    /// The same with room for so many chances.
    pub(crate) fn within(
        alloc: Global,
        dists: &[&Dist],
        room: usize,
    ) -> Result<DelayTables, NoMemory> {
        let slots = 2 * dists.len().min(PAIRS) + 1;
        let mut index = Vec::with_capacity(alloc, slots)?;
        'slots: for _ in 0..slots {
            index.push(u32::MAX)?;
        }
        let mut kept = DelayTables {
            tables: Vec::new(alloc),
            index,
        };
        let mut room = room;
        'dists: for d in dists {
            if let Dist::Geom(p, q) = d {
                if is_chance(*p, *q) {
                    room = kept.keep(alloc, *p, *q, room)?;
                }
            }
        }
        Ok(kept)
    }

    /// Keeps the table of a pair where it isn't kept yet and finds room; answers the room left.
    fn keep(&mut self, alloc: Global, p: u32, q: u32, room: usize) -> Result<usize, NoMemory>
        requires { IsChance p q }
    {
        if self.find(p, q).is_some() {
            return Ok(room);
        }
        let ticks = geometric::longest(p, q) as usize;
        if ticks + HEAD > room {
            return Ok(room);
        }
        let Ok(number) = u32::try_from(self.tables.len()) else {
            return Ok(room);
        };
        let slot = self.slot(p, q);
        self.tables.push(GeometricTable::new(alloc, p, q, ticks)?)?;
        if let Some(at) = self.index.get_mut(slot) {
            *at = number;
        }
        Ok(room - (ticks + HEAD))
    }

    /// The slot of a pair: that of its table, or else the first that is free.
    fn slot(&self, p: u32, q: u32) -> usize
        requires { IsChance p q }
    {
        let slots = self.index.len();
        if slots == 0 {
            return 0;
        }
        let mut at = pair(p, q) % slots;
        'slots: for _ in 0..slots {
            let Some(number) = self.index.get(at) else {
                return at;
            };
            let Some(table) = self.tables.get(*number as usize) else {
                return at;
            };
            if (table.p, table.q) == (p, q) {
                return at;
            }
            at = at.wrapping_add(1) % slots;
        }
        at
    }

    fn find(&self, p: u32, q: u32) -> Option<&GeometricTable>
        requires { IsChance p q }
        ensures { IfSome result (λ s. (s.now.p ≡ p) × (s.now.q ≡ q)) }
    {
        let number = *self.index.get(self.slot(p, q))?;
        let table = self.tables.get(number as usize)?;
        if table.p == p && table.q == q {
            Some(table)
        } else {
            None
        }
    }

    fn geometric(&self, p: u32, q: u32, u: u64) -> u64
        requires { IsChance p q }
        ensures value { result ≡ geometric p q u }
        ensures within { IsDelay result }
    {
        match self.find(p, q) {
            Some(table) => table.delay(u),
            None => geometric::delay(p, q, u),
        }
    }

    /// What the call `delay` answers, in ticks.
    pub fn delay<V: Marked>(&self, d: &Dist, u: u64, view: &mut V) -> Result<u64, Trap>
        requires sound { IsSoundDelay d.now }
        requires places { IsTrue (dist_below d.now (V.view_state view.old).places) }
        ensures value { Evaluates (V.view_state view.old) (V.view_state view.new) (delay_of d.now u) result }
        ensures within { IfOk result IsDelay }
    {
        match d {
            Dist::Geom(p, q) => Ok(self.geometric(*p, *q, u)),
            _ => delay(d, u, view),
        }
    }
}

//! Whom a change concerns: for each place the leaves that look at it, and of these not those that are
//! asleep, which some place of their own blocks.

ghost use Rattle.std.specs.Prelude.{◌≡◌, ◌==◌, ◌≤◌, ◌<◌, true, false, length, map, not, replicate, slice_get, IfOk, Some};
ghost use Rattle.san_base.specs.declared.limits.TheConstants.{MAX_CELLS};
ghost use Rattle.san_expr.specs.View.{ReadsCell, ViewState};
ghost use Rattle.san_law.specs.Lawful.{AllBelow};
ghost use Rattle.san_law.specs.State.{gather};
ghost use Rattle.san_net.specs.Laid.{place_of};
ghost use Rattle.san_net.specs.declared.part.Part.{Part};
ghost use Rattle.san_seq.specs.inner.Known.{IsAsleep};
ghost use Rattle.san_seq.specs.inner.Looks.{IsOwn, SawOwn, capped, view_state_of};
ghost use Rattle.san_seq.specs.inner.Wakes.{AreWoken, bands_at, level};

use crate::bands::table;
use crate::completion::Room;
use crate::concern::Concern;
use crate::stale::Flagged;
use san_base::{LeafId, MAX_CELLS, MAX_TOKENS, NoMemory, PlaceId};
use san_expr::Marked;
use san_net::{FirstInstant, Flat, Slot, first_instant};
use std::alloc::Global;
use std::marker::Model;

/// The leaves whose activities look at a place by one weight. A change concerns them where it
/// crosses the weight; with 0 each change does.
#[derive(Debug, Drop)]
pub(crate) struct Band {
    pub(crate) weight: u32,
    /// By number.
    pub(crate) leaves: Vec<LeafId>,
}

/// For each place the leaves whose instantaneous activities hang on it, and those whose timers do.
#[derive(Drop)]
pub(crate) struct Wakes {
    instants: Vec<Vec<Band>>,
    timers: Vec<Vec<Band>>,
}

impl Model for Wakes {
    ghost use Rattle.std.specs.Prelude.{map};
    ghost use Rattle.san_seq.specs.inner.Wakes.{Woken};

    ghost Value = { Woken };

    ghost view = { λ w. record { instants = map (λ v. v.items) w.instants.items; timers = map (λ v. v.items) w.timers.items } };
}

/// What of a value a weight sees: whether the value is as great; with 0 all of it.
fn level(weight: u32, value: u32) -> u32
    ensures { result ≡ level weight value }
{
    if weight == 0 {
        value
    } else if weight <= value {
        1
    } else {
        0
    }
}

impl Band {
    /// Whether a change of its place concerns its leaves.
    pub(crate) fn is_crossed(&self, old: u32, new: u32) -> bool
        ensures { result ≡ not (level self.now.weight old == level self.now.weight new) }
    {
        level(self.weight, old) != level(self.weight, new)
    }
}

impl Wakes {
    /// The leaves by the places of a network.
    pub(crate) fn open(alloc: Global, flat: &Flat) -> Result<Wakes, NoMemory>
        ensures { IfOk result (λ w. AreWoken flat.now w) }
    {
        let instants = table(alloc, flat, Concern::Instants)?;
        let timers = table(alloc, flat, Concern::Timers)?;
        Ok(Wakes { instants, timers })
    }

    /// The leaves whose instantaneous activities hang on a place.
    pub(crate) fn instants(&self, place: PlaceId) -> &[Band]
        requires { place.0 < length self.now.instants }
        ensures { result.now ≡ bands_at self.now.instants place.0 }
    {
        let bands = &self.instants[place.0 as usize];
        bands.as_slice()
    }

    /// The leaves whose timers do.
    pub(crate) fn timers(&self, place: PlaceId) -> &[Band]
        requires { place.0 < length self.now.timers }
        ensures { result.now ≡ bands_at self.now.timers place.0 }
    {
        let bands = &self.timers[place.0 as usize];
        bands.as_slice()
    }
}

/// A copy of a leaf's cells, with those that were looked at.
#[derive(Debug, Drop)]
pub(crate) struct Looks {
    cells: Room,
    looked: Flagged,
}

impl Model for Looks {
    ghost use Rattle.std.specs.Prelude.{◌≡◌, ◌≤◌, length};
    ghost use Rattle.san_base.specs.declared.limits.TheConstants.{MAX_CELLS};
    ghost use Rattle.san_seq.specs.inner.Looks.{Looked};

    ghost Value = { Looked };

    ghost view = { λ s. record { values = s.cells; looked = s.looked } };

    ghost invariant = { λ s. (length s.looked ≡ MAX_CELLS) × (length s.cells ≤ MAX_CELLS) };
}

/// A value, up to the greatest that there is. No value is greater; to carry this fact through all
/// steps would cost more than the test.
fn capped(value: u32) -> u32
    ensures { result ≡ capped value }
{
    if value <= MAX_TOKENS {
        value
    } else {
        MAX_TOKENS
    }
}

/// Whether a cell's place is of no other leaf.
fn is_own(slots: &[Slot], values: &[u32], at: usize) -> bool
    ensures { result ≡ true → IsOwn slots.now values.now at }
{
    match (slots.get(at), values.get(at)) {
        (Some(Slot::Private(_)), Some(value)) => *value <= MAX_TOKENS,
        _ => false,
    }
}

impl Looks {
    /// Takes the memory for the cells of a leaf.
    pub(crate) fn open(alloc: Global) -> Result<Looks, NoMemory> {
        let cells = Room::open(alloc)?;
        let looked = Flagged::open(alloc, MAX_CELLS as usize)?;
        Ok(Looks { cells, looked })
    }

    /// Takes a copy of a leaf's cells, at none of which it has looked.
    fn load(&mut self, slots: &[Slot], marking: &[u32])
        requires few { length slots.now ≤ MAX_CELLS }
        requires over { AllBelow (map place_of slots.now) (length marking.now) }
        ensures values { self.new.values ≡ gather (map place_of slots.now) marking.now }
        ensures looked { self.new.looked ≡ replicate MAX_CELLS false }
    {
        self.cells.load(slots, marking);
        self.looked.clear();
    }

    /// Whether it looked at cells alone whose places no other leaf has.
    fn saw_own(&self, slots: &[Slot]) -> bool
        ensures { result ≡ true → SawOwn slots.now self.now }
    {
        let looked = self.looked.list();
        let values = self.cells.as_slice();
        'looked: for k in 0..looked.len() {
            if !is_own(slots, values, looked[k]) {
                return false;
            }
        }
        true
    }
}

impl Marked for Looks {
    ghost view_state = { view_state_of };

    fn read(&mut self, place: u32) -> u32 {
        self.looked.raise(place as usize);
        let values = self.cells.as_slice();
        capped(values[place as usize])
    }
}

/// Whether a leaf has nothing, whatever values the places have that others have too.
pub(crate) fn is_asleep(flat: &Flat, looks: &mut Looks, leaf: LeafId, marking: &[u32]) -> bool
    requires leaf { leaf.0 < length flat.now.parts }
    requires sized { length marking.now ≡ length flat.now.initial }
    ensures { (p : Part) → slice_get flat.now.parts leaf.0 ≡ Some p → result ≡ true
        → IsAsleep flat.now.shared p marking.now }
{
    flat.is_network();
    let part = flat.part(leaf).get();
    let slots = part.slots.as_slice();
    looks.load(slots, marking);
    match first_instant(part.atomic.get(), looks) {
        FirstInstant::None => looks.saw_own(slots),
        FirstInstant::Enabled(_) | FirstInstant::Trapped(_, _) => false,
    }
}

//! The completion of a leaf's activity over the marking.

ghost use Rattle.std.specs.Prelude.{◌≡◌, ◌≤◌, ◌<◌, ◌+◌, ◌*◌, IfErr, IfOk, Some, [], length, map, slice_get, slice_index, take, ℕ};
ghost use Rattle.san_base.specs.declared.limits.TheConstants.{MAX_CELLS, MAX_DRAWS};
ghost use Rattle.san_draw.specs.Key.{draw_of};
ghost use Rattle.san_expr.specs.View.{ReadsCell, ViewState, assigned, plain};
ghost use Rattle.san_law.specs.Lawful.{AllBelow};
ghost use Rattle.san_law.specs.Network.{Limits};
ghost use Rattle.san_law.specs.State.{gather, scatter};
ghost use Rattle.san_net.specs.Accepted.{IsAccepted};
ghost use Rattle.san_net.specs.Cells.{LiesOver};
ghost use Rattle.san_net.specs.Laid.{acts_of, place_of, places_of};
ghost use Rattle.san_net.specs.declared.part.Part.{Part};
ghost use Rattle.san_seq.specs.inner.Completions.{completed_by, leaf_left, part_left};
ghost use Rattle.san_seq.specs.inner.Rows.{IsRowOf};

use san_base::{LeafId, MAX_ACTS, MAX_CELLS, NoMemory, Trap};
use san_clock::{Row, complete_act};
use san_draw::Streams;
use san_expr::{Cells, Marked};
use san_net::{Flat, Part, Slot, gather, scatter};
use std::alloc::{AllocError, Global};
use std::marker::Model;

/// A copy of a leaf's cells. There is room for those of any leaf, which is taken once.
#[derive(Debug, Drop)]
pub(crate) struct Room {
    /// The cells stand at the front, as many as `many`.
    values: Vec<u32>,
    many: usize,
}

impl Model for Room {
    ghost use Rattle.std.specs.Prelude.{List, ℕ, ◌≡◌, ◌≤◌, length, take};
    ghost use Rattle.san_base.specs.declared.limits.TheConstants.{MAX_CELLS};

    ghost Value = { List ℕ };

    ghost view = { λ r. take r.many r.values.items };

    ghost invariant = { λ r. (length r.values.items ≡ MAX_CELLS) × (r.many ≤ MAX_CELLS) };
}

fn zeros(alloc: Global) -> Result<Vec<u32>, AllocError>
    ensures { IfOk result (λ v. length v.items ≡ MAX_CELLS) }
{
    vec![in alloc; 0; MAX_CELLS as usize]
}

/// Copies a leaf's cells to the front of some values.
fn fill(slots: &[Slot], marking: &[u32], values: &mut [u32])
    requires room { length slots.now ≤ length values.old }
    requires over { AllBelow (map place_of slots.now) (length marking.now) }
    ensures cells { take (length slots.now) values.new ≡ gather (map place_of slots.now)
        marking.now }
    ensures sized { length values.new ≡ length values.old }
{
    gather(slots, marking, &mut values[..slots.len()]);
}

impl Room {
    /// Takes the memory for the cells of a leaf.
    pub(crate) fn open(alloc: Global) -> Result<Room, NoMemory>
        ensures { IfOk result (λ r. r ≡ []) }
    {
        let values = zeros(alloc)?;
        Ok(Room { values, many: 0 })
    }

    /// Takes a copy of a leaf's cells.
    pub(crate) fn load(&mut self, slots: &[Slot], marking: &[u32])
        requires few { length slots.now ≤ MAX_CELLS }
        requires over { AllBelow (map place_of slots.now) (length marking.now) }
        ensures { self.new ≡ gather (map place_of slots.now) marking.now }
    {
        fill(slots, marking, self.values.as_mut_slice());
        self.many = slots.len();
    }

    /// The copy.
    pub(crate) fn as_slice(&self) -> &[u32]
        ensures { result.now ≡ self.now }
    {
        let values = self.values.as_slice();
        &values[..self.many]
    }

    /// Puts the copy back.
    fn store(&self, slots: &[Slot], marking: &mut [u32])
        requires each { length self.now ≡ length slots.now }
        requires over { LiesOver (map place_of slots.now) marking.old }
        ensures { marking.new ≡ scatter (map place_of slots.now) self.now marking.old }
    {
        scatter(slots, self.as_slice(), marking);
    }
}

impl Marked for Room {
    ghost view_state = { plain };

    fn read(&mut self, place: u32) -> u32 {
        self.values[place as usize]
    }
}

impl Cells for Room {
    fn set(&mut self, place: u32, value: u32) {
        self.values[place as usize] = value;
    }
}

/// Completes an activity of a leaf over the marking with its next case draw: its case. It works on a
/// copy of the leaf's cells, so that a trap leaves the marking and the row as they were.
fn complete_leaf(
    streams: &mut Streams,
    part: &Part,
    act: u32,
    row: &mut Row,
    room: &mut Room,
    marking: &mut [u32],
) -> Result<u32, Trap>
    requires accepted { IsAccepted part.now.atomic }
    requires each { length part.now.slots ≡ length part.now.atomic.initial }
    requires act { act < length part.now.atomic.acts }
    requires over { LiesOver (places_of part.now) marking.old }
    requires cases { length row.old.cases ≡ length part.now.atomic.acts }
    requires streams { 2 * (part.now.first.0 + length part.now.atomic.acts) ≤ streams.old.streams }
    requires small { part.now.first.0 + length part.now.atomic.acts ≤ MAX_ACTS }
    requires number { slice_index row.old.cases act + 1 < MAX_DRAWS }
    ensures done { completed_by result marking.new row.new
        ≡ part_left (draw_of streams.old.seed) part.now act marking.old row.old }
    ensures trap { IfErr result (λ trap. (marking.new ≡ marking.old) × (row.new ≡ row.old)) }
    ensures timers { row.new.timers ≡ row.old.timers }
    ensures sized { length marking.new ≡ length marking.old }
    ensures streams { streams.new ≡ streams.old }
{
    let slots = part.slots.as_slice();
    room.load(slots, marking);
    match complete_act(streams, part, act, row, room) {
        Ok(case) => {
            room.store(slots, marking);
            Ok(case)
        }
        Err(trap) => Err(trap),
    }
}

/// Completes an activity of a leaf of the network over the marking with its next case draw: its
/// case. A trap leaves the marking and the row as they were.
pub(crate) fn complete_at(
    flat: &Flat,
    streams: &mut Streams,
    leaf: LeafId,
    act: u32,
    row: &mut Row,
    room: &mut Room,
    marking: &mut [u32],
) -> Result<u32, Trap>
    requires leaf { leaf.0 < length flat.now.parts }
    requires act { (p : Part) → slice_get flat.now.parts leaf.0 ≡ Some p
        → act < length p.atomic.acts }
    requires sized { length marking.old ≡ length flat.now.initial }
    requires row { (p : Part) → slice_get flat.now.parts leaf.0 ≡ Some p → IsRowOf p row.old }
    requires streams { 2 * acts_of flat.now.parts ≤ streams.old.streams }
    requires number { slice_index row.old.cases act + 1 < MAX_DRAWS }
    ensures done { (limits : Limits) → completed_by result marking.new row.new
        ≡ leaf_left flat.now (draw_of streams.old.seed) limits leaf.0 act marking.old row.old }
    ensures trap { IfErr result (λ trap. (marking.new ≡ marking.old) × (row.new ≡ row.old)) }
    ensures timers { row.new.timers ≡ row.old.timers }
    ensures sized { length marking.new ≡ length marking.old }
    ensures streams { streams.new ≡ streams.old }
{
    flat.is_network();
    complete_leaf(streams, flat.part(leaf).get(), act, row, room, marking)
}

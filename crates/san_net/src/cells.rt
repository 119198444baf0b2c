//! A leaf's cells in a marking of the whole network: read, taken out, put back, compared and copied.

ghost use Rattle.std.specs.Prelude.{◌≡◌, length, map};
ghost use Rattle.san_expr.specs.View.{plain};
ghost use Rattle.san_law.specs.Clocks.{same_list};
ghost use Rattle.san_law.specs.Lawful.{AllBelow};
ghost use Rattle.san_law.specs.State.{gather, scatter};
ghost use Rattle.san_net.specs.Cells.{LiesOver};
ghost use Rattle.san_net.specs.Laid.{place_of};

use crate::part::Slot;
use san_expr::Marked;
use std::marker::Model;

/// A leaf's cells in a lent marking, which contracts see as the leaf's values.
#[derive(Debug, Drop)]
pub struct LeafCells<'a> {
    slots: &'a [Slot],
    marking: &'a [u32],
}

impl<'a> Model for LeafCells<'a> {
    ghost use Rattle.std.specs.Prelude.{List, ℕ, length, map};
    ghost use Rattle.san_law.specs.Lawful.{AllBelow};
    ghost use Rattle.san_law.specs.State.{gather};
    ghost use Rattle.san_net.specs.Laid.{place_of};

    ghost Value = { List ℕ };

    ghost view = { λ v. gather (map place_of v.slots.now) v.marking.now };

    ghost invariant = { λ v. AllBelow (map place_of v.slots.now) (length v.marking.now) };
}

impl<'a> LeafCells<'a> {
    /// The cells of these slots.
    pub fn new(slots: &'a [Slot], marking: &'a [u32]) -> LeafCells<'a>
        requires { AllBelow (map place_of slots.now) (length marking.now) }
        ensures { result ≡ gather (map place_of slots.now) marking.now }
    {
        LeafCells { slots, marking }
    }
}

impl<'a> Marked for LeafCells<'a> {
    ghost view_state = { plain };

    fn read(&mut self, place: u32) -> u32 {
        let slots = self.slots;
        let marking = self.marking;
        let at = slots[place as usize].place().0;
        marking[at as usize]
    }
}

/// Takes a leaf's values out of a marking.
pub fn gather(slots: &[Slot], marking: &[u32], values: &mut [u32])
    requires sized { length values.old ≡ length slots.now }
    requires over { AllBelow (map place_of slots.now) (length marking.now) }
    ensures { values.new ≡ gather (map place_of slots.now) marking.now }
{
    'cells: for k in 0..slots.len() {
        let at = slots[k].place().0 as usize;
        values[k] = marking[at];
    }
}

/// Puts a leaf's values into a marking.
pub fn scatter(slots: &[Slot], values: &[u32], marking: &mut [u32])
    requires sized { length values.now ≡ length slots.now }
    requires over { LiesOver (map place_of slots.now) marking.old }
    ensures { marking.new ≡ scatter (map place_of slots.now) values.now marking.old }
{
    'cells: for k in 0..slots.len() {
        let at = slots[k].place().0 as usize;
        marking[at] = values[k];
    }
}

/// Whether a leaf has the same values in two markings.
pub fn same_values(slots: &[Slot], a: &[u32], b: &[u32]) -> bool
    requires first { AllBelow (map place_of slots.now) (length a.now) }
    requires second { AllBelow (map place_of slots.now) (length b.now) }
    ensures { result ≡ same_list (gather (map place_of slots.now) a.now) (gather (map place_of
        slots.now) b.now) }
{
    'cells: for k in 0..slots.len() {
        let at = slots[k].place().0 as usize;
        if a[at] != b[at] {
            return false;
        }
    }
    true
}

/// Gives a leaf's cells in a marking the values that they have in another.
pub fn copy_cells(slots: &[Slot], from: &[u32], to: &mut [u32])
    requires sized { length to.old ≡ length from.now }
    requires over { LiesOver (map place_of slots.now) from.now }
    ensures { to.new ≡ scatter (map place_of slots.now) (gather (map place_of slots.now) from.now) to.old }
{
    'cells: for k in 0..slots.len() {
        let at = slots[k].place().0 as usize;
        to[at] = from[at];
    }
}

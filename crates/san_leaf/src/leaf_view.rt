//! A leaf's cells over a lent view of the places that several leaves share.

ghost use Rattle.std.specs.Prelude.{◌≡◌, ◌<◌, ◌≤◌, ℕ, List, Option, length, map};
ghost use Rattle.san_expr.specs.View.{ReadsCell, ViewState, assigned};
ghost use Rattle.san_leaf.specs.Views.{Shows};
ghost use Rattle.san_leaf.specs.inner.ViewStates.{Seeing, view_state_of};

use san_base::{MAX_TOKENS, PlaceId};
use san_expr::{Cells, Marked};
use san_mark::Overlay;
use san_net::Slot;
use std::marker::Model;

/// A view of the network's shared places.
pub trait View {
    ghost marking: { Self → Option (List ℕ) };

    ghost kept: { Self → List ℕ };

    /// The value of a place, at most `MAX_TOKENS`.
    fn read(&mut self, place: PlaceId) -> u32
        ensures value { result ≤ MAX_TOKENS }
        ensures shown { Shows (marking self.old) place.0 result }
        ensures same { marking self.new ≡ marking self.old }
        ensures kept { kept self.new ≡ kept self.old };
}

/// A leaf's cells over a lent view: its own values, those that were assigned, and the first ones
/// that were read of the others.
#[derive(Drop)]
pub(crate) struct LeafView<'s, V: View> {
    pub(crate) lent: V,
    pub(crate) slots: &'s [Slot],
    pub(crate) own: Overlay,
    pub(crate) first: Overlay,
}

impl<'s, V: View> Model for LeafView<'s, V> {
    ghost use Rattle.std.specs.Prelude.{length, map};
    ghost use Rattle.san_net.specs.Laid.{place_of};
    ghost use Rattle.san_leaf.specs.inner.ViewStates.{IsSeeing, Seeing};

    ghost Value = { Seeing };

    ghost view = { λ s. record { places = map place_of s.slots.now; own = s.own; first = s.first; marking = V.marking s.lent; kept = V.kept s.lent } };

    ghost invariant = { λ s. IsSeeing (length s.slots.now) s.own s.first };
}

impl<'s, V: View> LeafView<'s, V> {
    /// As many cells are known or not as there are places.
    pub(crate) fn is_sized(&self)
        ensures { length self.now.first ≡ length self.now.places }
    {
        let _ = &self.first;
    }
}

impl<'s, V: View> Marked for LeafView<'s, V> {
    ghost view_state = { view_state_of };

    fn read(&mut self, place: u32) -> u32 {
        if let Some(value) = self.own.get(place) {
            return value;
        }
        if let Some(value) = self.first.get(place) {
            return value;
        }
        let slots = self.slots;
        let value = self.lent.read(slots[place as usize].place());
        self.first.set(place, value);
        value
    }
}

impl<'s, V: View> Cells for LeafView<'s, V> {
    fn set(&mut self, place: u32, value: u32) {
        self.own.set(place, value);
    }
}

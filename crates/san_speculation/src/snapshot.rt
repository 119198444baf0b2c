//! The values of a leaf's shared places, taken at once.

ghost use Rattle.std.specs.Prelude.{◌≡◌, ◌≤◌, ◌<◌, ℕ, [], IfOk, OnOk, Some, length, map, slice_index};
ghost use Rattle.san_base.specs.declared.limits.TheConstants.{MAX_TOKENS};
ghost use Rattle.san_net.specs.Leaf.{slot_in};
ghost use Rattle.san_speculation.specs.Snapshots.{IsFor, added, filled, marking_of, shared_more, shared_places, shown_at};
ghost use Rattle.san_speculation.specs.inner.Ascending.{AreAscending, IsIndexOf, value_in};

use crate::speculation::Core;
use san_ahead::Ahead;
use san_base::{NoMemory, PlaceId, Stamp};
use san_leaf::View;
use san_net::{Part, Slot};
use std::alloc::Global;
use std::marker::Model;

/// The shared places of a part, in the order of their numbers, with a value for each: what a piece of
/// the part is made over. It may be filled again and again.
#[derive(Drop)]
pub struct Snapshot {
    places: Vec<u32>,
    values: Vec<u32>,
}

impl Model for Snapshot {
    ghost use Rattle.san_speculation.specs.Snapshots.{SnapshotValue};
    ghost use Rattle.san_speculation.specs.inner.Ascending.{IsSnapshot};

    ghost Value = { SnapshotValue };

    ghost view = { λ s. record { places = s.places.items; values = s.values.items } };

    ghost invariant = { λ s. IsSnapshot s.places.items s.values.items };
}

/// Where a place stands among others, or else where it belongs.
fn index_of(places: &[u32], place: u32) -> Result<usize, usize>
    requires { AreAscending places.now }
    ensures { IsIndexOf place places.now result }
{
    places.binary_search(&place)
}

/// Puts a place among others, where it isn't there yet.
fn add(places: &mut Vec<u32>, place: u32) -> Result<(), NoMemory>
    requires { AreAscending places.old.items }
    ensures { OnOk result (places.new.items ≡ added place places.old.items) }
{
    match index_of(places.as_slice(), place) {
        Ok(_) => Ok(()),
        Err(at) => {
            places.insert(at, place)?;
            Ok(())
        }
    }
}

/// The shared places among slots.
fn shared_of(alloc: Global, slots: &[Slot]) -> Result<Vec<u32>, NoMemory>
    ensures places { IfOk result (λ v. v.items ≡ shared_more [] (map slot_in slots.now)) }
    ensures ascending { IfOk result (λ v. AreAscending v.items) }
{
    let mut places = Vec::new(alloc);
    'slots: for slot in slots {
        if let Slot::Shared(place) = slot {
            add(&mut places, place.0)?;
        }
    }
    Ok(places)
}

/// A zero for each place.
fn zeros(alloc: Global, places: &[u32]) -> Result<Vec<u32>, NoMemory>
    ensures { IfOk result (λ v. v.items ≡ map (λ q. 0) places.now) }
{
    let mut values = Vec::with_capacity(alloc, places.len())?;
    'places: for _ in 0..places.len() {
        values.push(0)?;
    }
    Ok(values)
}

/// Gives each place one value.
fn fill_all(places: &[u32], values: &mut [u32], value: u32)
    requires { length values.old ≡ length places.now }
    ensures { values.new ≡ map (λ q. value) places.now }
{
    'places: for k in 0..places.len() {
        values[k] = value;
    }
}

/// Gives each place what the lines show of it at a stamp.
fn show_all(places: &[u32], values: &mut [u32], ahead: &Ahead, stamp: Stamp)
    requires { length values.old ≡ length places.now }
    ensures { values.new ≡ map (shown_at ahead.now.lines stamp) places.now }
{
    'places: for k in 0..places.len() {
        values[k] = ahead.read(PlaceId(places[k]), stamp);
    }
}

/// The value of a place; one that isn't there has 0.
fn value_of(places: &[u32], values: &[u32], place: u32) -> u32
    requires ascending { AreAscending places.now }
    requires long { length values.now ≡ length places.now }
    ensures { result ≡ value_in place places.now values.now }
{
    match index_of(places, place) {
        Ok(at) => values[at],
        Err(_) => 0,
    }
}

impl Snapshot {
    /// The shared places of a part, each with the value 0.
    pub fn for_part(alloc: Global, part: &Part) -> Result<Snapshot, NoMemory>
        ensures { IfOk result (λ s. s ≡ filled (λ q. 0) (shared_places part.now)) }
    {
        let places = shared_of(alloc, part.slots.as_slice())?;
        let values = zeros(alloc, places.as_slice())?;
        Ok(Snapshot { places, values })
    }

    /// Gives each of its places one value.
    pub fn fill(&mut self, value: u32)
        requires { value ≤ MAX_TOKENS }
        ensures { self.new ≡ filled (λ q. value) self.old.places }
    {
        fill_all(self.places.as_slice(), self.values.as_mut_slice(), value);
    }

    /// Gives each of its places what the lines show of it at a stamp.
    fn show(&mut self, ahead: &Ahead, stamp: Stamp)
        requires { (q : ℕ) → shown_at ahead.now.lines stamp q ≤ MAX_TOKENS }
        ensures { self.new ≡ filled (shown_at ahead.now.lines stamp) self.old.places }
    {
        show_all(
            self.places.as_slice(),
            self.values.as_mut_slice(),
            ahead,
            stamp,
        );
    }
}

impl View for Snapshot {
    ghost marking = { λ s. Some (marking_of s.places s.values) };

    ghost kept = { λ s. [] };

    fn read(&mut self, place: PlaceId) -> u32 {
        value_of(self.places.as_slice(), self.values.as_slice(), place.0)
    }
}

impl Core {
    /// Gives each place of a snapshot, which was made for this part, what the core's lines show of it
    /// at a stamp, as `read` does; a place that isn't one of the core's shared places has 0. It takes
    /// no memory.
    pub fn snapshot(&self, part: &Part, stamp: Stamp, into: &mut Snapshot)
        requires { IsFor part.now into.old }
        ensures { into.new ≡ filled (shown_at self.now.book.lines stamp) (shared_places part.now) }
    {
        self.keeps_the_law();
        self.machine.network().is_network();
        into.show(&self.ahead, stamp);
    }
}

//! A read log and its calls.

ghost use Rattle.std.specs.Prelude.{◌≡◌, ◌≤◌, ◌<◌, ◌⊎◌, ◌↔◌, [], length, slice_get, Some, IfOk, IfSome, IsSome, IsTrue};
ghost use Rattle.san_log.specs.Logs.{AreEntriesOf, find, noted};

use san_base::{MAX_TOKENS, NoMemory, PlaceId};
use std::alloc::Global;
use std::marker::Model;

/// The places of the longest log: each entry has a number.
const MAX_ROOM: u32 = u32::MAX;

/// The first values that were read of some places, in the order of reading, and room for more.
#[derive(Debug, Drop)]
pub struct ReadLog {
    entries: Vec<(PlaceId, u32)>,
    room: u32,
}

impl Model for ReadLog {
    ghost use Rattle.std.specs.Prelude.{◌≤◌, vec_len, vec_capacity};
    ghost use Rattle.san_log.specs.Logs.{LogValue};
    ghost use Rattle.san_log.specs.Once.{AreNoted};
    ghost use Rattle.san_log.specs.declared.log.TheConstants.{MAX_ROOM};

    ghost Value = { LogValue };

    ghost view = { λ l. record { entries = l.entries.items; room = l.room } };

    ghost invariant = { λ l. AreNoted l.entries.items × (vec_len l.entries ≤ l.room)
        × (l.room ≤ vec_capacity l.entries) × (l.room ≤ MAX_ROOM) };
}

/// The value of a place among some entries.
fn value_of(place: PlaceId, entries: &[(PlaceId, u32)]) -> Option<u32>
    ensures { result ≡ find place.0 entries.now }
{
    'find: for entry in entries {
        if entry.0 == place {
            return Some(entry.1);
        }
    }
    None
}

/// Whether a place has a value in a list of values by place.
fn has(shared: &[u32], place: PlaceId, value: u32) -> bool
    ensures { IsTrue result ↔ (slice_get shared.now place.0 ≡ Some value) }
{
    match shared.get(place.0 as usize) {
        Some(there) => *there == value,
        None => false,
    }
}

/// Whether each of some entries has its value in a list of values by place.
#[tactic(auto, using(crate::proofs::Noted::agree_as_far, crate::proofs::Noted::agree_no_more))]
fn agree(entries: &[(PlaceId, u32)], shared: &[u32]) -> bool
    ensures { IsTrue result ↔ AreEntriesOf entries.now shared.now }
{
    'next: for entry in entries {
        if !has(shared, entry.0, entry.1) {
            return false;
        }
    }
    true
}

impl ReadLog {
    /// An empty log with room for so many places.
    pub fn new(alloc: Global, room: u32) -> Result<ReadLog, NoMemory>
        ensures { IfOk result (λ l. l ≡ record { entries = []; room = room }) }
    {
        Ok(ReadLog {
            entries: Vec::with_capacity(alloc, room as usize)?,
            room,
        })
    }

    /// How many places there are.
    pub fn len(&self) -> u32
        ensures { result ≡ length self.now.entries }
    {
        self.entries.len() as u32
    }

    /// The value that was noted of a place.
    #[tactic(auto, using(crate::proofs::Noted::found_small))]
    pub fn get(&self, place: PlaceId) -> Option<u32>
        ensures value { result ≡ find place.0 self.now.entries }
        ensures small { IfSome result (λ v. v ≤ MAX_TOKENS) }
    {
        value_of(place, &self.entries)
    }

    /// An entry by its number, in the order of noting.
    pub fn entry(&self, index: u32) -> Option<(PlaceId, u32)>
        ensures { result ≡ slice_get self.now.entries index }
    {
        self.entries.get(index as usize).copied()
    }

    /// Notes a place's value, unless the place has one.
    #[tactic(auto, using(crate::proofs::Noted::one_more))]
    pub fn note(&mut self, place: PlaceId, value: u32)
        requires value { value ≤ MAX_TOKENS }
        requires room { IsSome (find place.0 self.old.entries) ⊎ (length self.old.entries < self.old.room) }
        ensures { self.new ≡ record self.old { entries = noted place value self.old.entries } }
    {
        if value_of(place, &self.entries).is_none() {
            let _ = self.entries.push((place, value));
        }
    }

    /// Whether each noted place has its value in a list of values by place.
    pub fn agrees(&self, shared: &[u32]) -> bool
        ensures { IsTrue result ↔ AreEntriesOf self.now.entries shared.now }
    {
        agree(&self.entries, shared)
    }
}

//! The numbers of the places that the homes of cells are.

ghost use Rattle.std.specs.Prelude.{◌≡◌, ◌≤◌, ◌+◌, ◌*◌, ◌++◌, List, length, map, nat_eq, slice_index, true, IfOk};
ghost use Rattle.std.specs.List.{count_by, list_any};
ghost use Rattle.san_base.specs.declared.limits.TheConstants.{MAX_PLACES};
ghost use Rattle.san_flat.specs.Homes.{CellHome, same, home_of_key};
ghost use Rattle.san_flat.specs.Networks.{slot_at, slot_of};
ghost use Rattle.san_flat.specs.inner.Sightings.{AreNumbers};
ghost use Rattle.san_net.specs.Numbering.{AreRecorded, number, ranked};

use crate::home::HomeKey;
use indexmap::IndexSet;
use san_base::{NoMemory, PlaceId};
use san_net::Slot;
use std::alloc::Global;

/// The different homes with the numbers of the places that they are, and how many of these are
/// shared.
#[derive(Drop)]
pub struct Numbers {
    pub homes: IndexSet<HomeKey>,
    pub places: Vec<u32>,
    pub shared: u32,
}

/// How many were seen twice or more.
fn repeated(counts: &[u8]) -> usize
    ensures { result ≡ count_by (λ n. nat_eq n 2) counts.now }
{
    counts.iter().filter(|count| **count == 2).count()
}

/// Numbers for what was seen so often: those that were twice or more count from 0, the others from
/// the number of these.
fn ranks(alloc: Global, counts: &[u8], shared: u32) -> Result<Vec<u32>, NoMemory>
    requires { shared + length counts.now ≤ 2 * MAX_PLACES }
    ensures { IfOk result (λ v. v.items ≡ ranked 0 shared counts.now) }
{
    let mut numbers = Vec::with_capacity(alloc, counts.len())?;
    let mut next_shared: u32 = 0;
    let mut next_private = shared;
    'counts: for count in counts {
        if *count == 2 {
            numbers.push(next_shared)?;
            next_shared += 1;
        } else {
            numbers.push(next_private)?;
            next_private += 1;
        }
    }
    Ok(numbers)
}

/// The numbers of homes that were seen so often.
pub(crate) fn numbers_of(
    alloc: Global,
    homes: IndexSet<HomeKey>,
    counts: &[u8],
) -> Result<Numbers, NoMemory>
    requires { length counts.now ≤ MAX_PLACES }
    ensures { IfOk result (λ numbers. (cells : List CellHome)
        → AreRecorded same cells (map home_of_key homes.keys) counts.now → AreNumbers cells numbers) }
{
    let shared = repeated(counts) as u32;
    let places = ranks(alloc, counts, shared)?;
    Ok(Numbers {
        homes,
        places,
        shared,
    })
}

fn place_at(places: &[u32], at: usize) -> u32
    ensures { result ≡ slice_index places.now at }
{
    match places.get(at) {
        Some(place) => *place,
        None => 0,
    }
}

fn slot_at(shared: u32, place: u32) -> Slot
    ensures { result ≡ slot_at shared place }
{
    if place < shared {
        Slot::Shared(PlaceId(place))
    } else {
        Slot::Private(PlaceId(place))
    }
}

fn place_of(numbers: &Numbers, home: &HomeKey) -> u32
    ensures { (cells : List CellHome) → AreNumbers cells numbers.now
        → list_any (same (home_of_key home.now)) cells ≡ true → result ≡ number same cells (home_of_key
        home.now) }
{
    match numbers.homes.get_index_of(home) {
        Some(at) => place_at(&numbers.places, at),
        None => 0,
    }
}

/// The slot of a cell that was seen.
pub(crate) fn slot_of(numbers: &Numbers, home: &HomeKey) -> Slot
    ensures { (cells : List CellHome) → AreNumbers cells numbers.now
        → list_any (same (home_of_key home.now)) cells ≡ true → result ≡ slot_of cells (home_of_key
        home.now) }
{
    slot_at(numbers.shared, place_of(numbers, home))
}

//! The words of places and atomics.

ghost use Rattle.std.specs.Prelude.{◌≡◌, [], OnOk, IfOk, unwrap_or};
ghost use Rattle.san_check.specs.inner.Walks.{seen_all};
ghost use Rattle.san_check.specs.walk.Atomic.{cells_of, counted, place_code, length_entries, initial_entries, place_of, places_entries, all_places, acts_entries, all_acts};

use crate::codes::{ARRAY_LENGTH, INITIAL_TOO_LARGE, NAME_TAKEN, TOO_MANY_CELLS};
use crate::place::Place;
use crate::table::Table;
use crate::walk::activity::{act_code, walk_act};
use crate::walk::{Walk, code};
use san_base::{MAX_CELLS, MAX_TOKENS, NoMemory};
use san_text::{ActDecl, PlaceDecl};
use std::alloc::Global;

fn cells_of(place: &PlaceDecl) -> u64
    ensures { result ≡ cells_of place.now }
{
    match place.length {
        Some(length) => length,
        None => 1,
    }
}

fn counted(cells: u64, more: u64) -> u64
    ensures { result ≡ counted cells more }
{
    cells.saturating_add(more).min(u64::from(MAX_CELLS) + 1)
}

/// The name of a place behind so many cells.
#[tactic(auto, unfolding(crate::specs::walk::Atomic::place_code))]
fn place_code<'a>(places: &Table<'a, Place>, cells: u64, place: &'a PlaceDecl) -> Option<u32>
    ensures { result ≡ place_code places.now cells place.now }
{
    let known = places.is_known(place.name.as_bytes());
    code(NAME_TAKEN, known).or(code(
        TOO_MANY_CELLS,
        place.length.is_none() && counted(cells, 1) > u64::from(MAX_CELLS),
    ))
}

#[tactic(auto, unfolding(crate::specs::walk::Atomic::length_entries))]
fn walk_length(walk: &mut Walk, cells: u64, length: Option<u64>)
    ensures { walk.new ≡ seen_all walk.old (length_entries cells length) }
{
    if let Some(length) = length {
        walk.see(code(
            ARRAY_LENGTH,
            length == 0 || counted(cells, length) > u64::from(MAX_CELLS),
        ));
    }
}

#[tactic(auto, unfolding(crate::specs::walk::Atomic::initial_entries))]
fn walk_initial(walk: &mut Walk, initial: Option<u64>)
    ensures { walk.new ≡ seen_all walk.old (initial_entries initial) }
{
    if let Some(initial) = initial {
        walk.see(code(INITIAL_TOO_LARGE, initial > u64::from(MAX_TOKENS)));
    }
}

fn place_of(place: &PlaceDecl) -> Place
    ensures { result ≡ place_of place.now }
{
    Place {
        initial: place.initial.unwrap_or(0),
        length: place.length,
    }
}

/// Walks the places of an atomic, and answers them.
#[tactic(auto, using(crate::proofs::EntryLemmas::seen_append))]
pub(crate) fn walk_places<'a>(
    alloc: Global,
    walk: &mut Walk,
    decls: &'a [PlaceDecl],
) -> Result<Table<'a, Place>, NoMemory>
    ensures entries { OnOk result (walk.new ≡ seen_all walk.old (places_entries [] 0 decls.now)) }
    ensures places { IfOk result (λ places. places ≡ all_places [] decls.now) }
{
    let mut places = Table::new(alloc);
    let mut cells = 0;
    'places: for decl in decls {
        walk.see(place_code(&places, cells, decl));
        walk_length(walk, cells, decl.length);
        walk_initial(walk, decl.initial);
        cells = counted(cells, cells_of(decl));
        places.declare(decl.name.as_bytes(), place_of(decl))?;
    }
    Ok(places)
}

/// Walks the activities of an atomic, and answers their names.
#[tactic(auto, using(crate::proofs::EntryLemmas::seen_append))]
pub(crate) fn walk_acts<'a>(
    alloc: Global,
    walk: &mut Walk,
    places: &Table<'a, Place>,
    decls: &'a [ActDecl],
) -> Result<Table<'a, ()>, NoMemory>
    ensures entries { OnOk result (walk.new
        ≡ seen_all walk.old (acts_entries places.now [] 0 decls.now)) }
    ensures acts { IfOk result (λ acts. acts ≡ all_acts [] decls.now) }
{
    let mut acts = Table::new(alloc);
    'acts: for (n, decl) in decls.iter().enumerate() {
        walk.see(act_code(places, &acts, n, &decl.name));
        walk_act(walk, places, decl);
        acts.declare(decl.name.as_bytes(), ())?;
    }
    Ok(acts)
}

//! The cells of places, with their initial values.

ghost use Rattle.std.specs.Prelude.{◌≡◌, ◌+◌, ◌++◌, replicate, unwrap_or, [], IfOk, OnOk};
ghost use Rattle.san_check.specs.walk.Atomic.{cells_of};
ghost use Rattle.san_check.specs.build.Composition.{capped};
ghost use Rattle.san_check.specs.build.Cells.{cells_behind, all_cells, cells_at, values_of, all_values};

use crate::limits::MAX_COUNT;
use crate::table::Table;
use san_base::{Name, NoMemory};
use san_text::PlaceDecl;
use std::alloc::Global;

/// The cells of a place: the first one, and how many.
#[derive(Clone, Copy, Debug)]
pub struct Cells {
    pub first: u32,
    pub length: u32,
}

pub(crate) fn capped(n: u64) -> u32
    ensures { result ≡ capped n }
{
    n.min(u64::from(MAX_COUNT)) as u32
}

/// The cells of a place behind so many others.
fn cells_behind(first: u32, place: &PlaceDecl) -> Cells
    ensures { result ≡ cells_behind first place.now }
{
    Cells {
        first,
        length: capped(place.length.unwrap_or(1)),
    }
}

/// The first cell behind those of a place.
fn behind(place: Cells) -> u32
    ensures { result ≡ capped (place.first + place.length) }
{
    place.first.saturating_add(place.length)
}

/// The cells of all places of an atomic.
pub(crate) fn all_cells<'a>(
    alloc: Global,
    decls: &'a [PlaceDecl],
) -> Result<Table<'a, Cells>, NoMemory>
    ensures { IfOk result (λ cells. cells ≡ all_cells [] 0 decls.now) }
{
    let mut cells = Table::new(alloc);
    let mut first: u32 = 0;
    'places: for decl in decls {
        let place = cells_behind(first, decl);
        cells.declare(decl.name.as_bytes(), place)?;
        first = behind(place);
    }
    Ok(cells)
}

/// The cells of the place of a name.
#[tactic(auto, unfolding(crate::specs::build::Cells::cells_at))]
pub(crate) fn cells_at<'a>(cells: &Table<'a, Cells>, name: &'a Name) -> Cells
    ensures { result ≡ cells_at cells.now name.now }
{
    match cells.find(name.as_bytes()) {
        Some(found) => *found,
        None => Cells {
            first: 0,
            length: 0,
        },
    }
}

fn put_values(values: &mut Vec<u32>, place: &PlaceDecl) -> Result<(), NoMemory>
    ensures { OnOk result (values.new.items ≡ values.old.items ++ values_of place.now) }
{
    let value = capped(place.initial.unwrap_or(0));
    let mut left = capped(place.length.unwrap_or(1));
    'cells: while left > 0 {
        left -= 1;
        values.push(value)?;
    }
    Ok(())
}

/// The initial values of all cells of an atomic.
pub(crate) fn all_values(alloc: Global, decls: &[PlaceDecl]) -> Result<Vec<u32>, NoMemory>
    ensures { IfOk result (λ values. values.items ≡ all_values decls.now) }
{
    let mut values = Vec::new(alloc);
    'places: for decl in decls {
        put_values(&mut values, decl)?;
    }
    Ok(values)
}

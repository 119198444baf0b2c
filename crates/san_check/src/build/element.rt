//! The place and the element of each cell.

ghost use Rattle.std.specs.Prelude.{◌≡◌, ◌++◌, IfOk, OnOk};
ghost use Rattle.san_check.specs.walk.Atomic.{cells_of};
ghost use Rattle.san_check.specs.build.Composition.{capped};
ghost use Rattle.san_check.specs.build.Cells.{elements, all_elements, elements_in, elements_from, elements_of};

use crate::build::cells::capped;
use san_base::{Items, NoMemory};
use san_text::{ModelDecl, PlaceDecl, Syntax};
use std::alloc::Global;

/// Adds the cells of a place.
fn put_elements(cells: &mut Vec<(u32, u32)>, place: u32, decl: &PlaceDecl) -> Result<(), NoMemory>
    ensures { OnOk result (cells.new.items
        ≡ cells.old.items ++ elements place 0 (capped (cells_of decl.now))) }
{
    let mut element: u32 = 0;
    let mut left = capped(decl.length.unwrap_or(1));
    'cells: while left > 0 {
        left -= 1;
        cells.push((place, element))?;
        element = element.saturating_add(1);
    }
    Ok(())
}

/// The place and the element of each cell of an atomic.
fn all_elements(alloc: Global, decls: &[PlaceDecl]) -> Result<Items<(u32, u32)>, NoMemory>
    ensures { IfOk result (λ cells. cells ≡ all_elements 0 decls.now) }
{
    let mut cells = Vec::new(alloc);
    let mut place: u32 = 0;
    'places: for decl in decls {
        put_elements(&mut cells, place, decl)?;
        place = place.saturating_add(1);
    }
    Ok(Items::from_vec(cells))
}

#[tactic(auto, unfolding(crate::specs::build::Cells::elements_in))]
fn put_atomic(
    alloc: Global,
    cells: &mut Vec<Items<(u32, u32)>>,
    decl: &ModelDecl,
) -> Result<(), NoMemory>
    ensures { OnOk result (cells.new.items ≡ cells.old.items ++ elements_in decl.now) }
{
    if let ModelDecl::Atomic { places, .. } = decl {
        let own = all_elements(alloc, places.as_slice())?;
        cells.push(own)?;
    }
    Ok(())
}

/// The place and the element of each cell, atomic by atomic.
fn elements_from(alloc: Global, decls: &[ModelDecl]) -> Result<Items<Items<(u32, u32)>>, NoMemory>
    ensures { IfOk result (λ cells. cells ≡ elements_from decls.now) }
{
    let mut cells = Vec::new(alloc);
    'models: for decl in decls {
        put_atomic(alloc, &mut cells, decl)?;
    }
    Ok(Items::from_vec(cells))
}

/// For each atomic of a syntax the place and the element of each of its cells, in order.
#[tactic(auto, unfolding(crate::specs::build::Cells::elements_of))]
pub(crate) fn cells_of(alloc: Global, syntax: &Syntax) -> Result<Items<Items<(u32, u32)>>, NoMemory>
    ensures { IfOk result (λ cells. cells ≡ elements_of syntax.now) }
{
    elements_from(alloc, syntax.models.as_slice())
}

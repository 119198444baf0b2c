//! An overlay and its calls.

ghost use Rattle.std.specs.Prelude.{◌≡◌, ◌≤◌, ◌<◌, length, replicate, slice_index_or, slice_set, IfOk, IfSome, Some, None, All};
ghost use Rattle.san_mark.specs.Overlays.{IsSmall};

use san_base::{MAX_TOKENS, NoMemory};
use std::alloc::Global;
use std::marker::Model;

/// The values that were set of some cells since the last clearing, each at most `MAX_TOKENS`.
#[derive(Debug, Drop)]
pub struct Overlay {
    cells: Vec<Option<u32>>,
}

impl Model for Overlay {
    ghost use Rattle.std.specs.Prelude.{List, Option, ℕ, All};
    ghost use Rattle.san_mark.specs.Overlays.{IsSmall};

    ghost Value = { List (Option ℕ) };

    ghost view = { λ o. o.cells.items };

    ghost invariant = { λ o. All IsSmall o.cells.items };
}

/// Cells of which none is set.
fn unset(alloc: Global, cells: usize) -> Result<Vec<Option<u32>>, NoMemory>
    ensures { IfOk result (λ v. v.items ≡ replicate cells None) }
{
    let cells = vec![in alloc; None; cells]?;
    Ok(cells)
}

impl Overlay {
    /// An overlay of these values.
    pub fn of(cells: Vec<Option<u32>>) -> Overlay
        requires { All IsSmall cells.items }
        ensures { result ≡ cells.items }
    {
        Overlay { cells }
    }

    /// An overlay of so many cells, none of which is set.
    pub fn new(alloc: Global, cells: u32) -> Result<Overlay, NoMemory>
        ensures { IfOk result (λ o. o ≡ replicate cells None) }
    {
        Ok(Overlay {
            cells: unset(alloc, cells as usize)?,
        })
    }

    /// The value that was set of a cell.
    pub fn get(&self, cell: u32) -> Option<u32>
        requires { cell < length self.now }
        ensures value { result ≡ slice_index_or self.now cell None }
        ensures small { IfSome result (λ v. v ≤ MAX_TOKENS) }
    {
        self.cells[cell as usize]
    }

    /// What was set, cell by cell.
    pub fn as_slice(&self) -> &[Option<u32>]
        ensures value { result.now ≡ self.now }
        ensures small { All IsSmall result.now }
    {
        &self.cells
    }

    /// Sets a cell's value.
    pub fn set(&mut self, cell: u32, value: u32)
        requires cell { cell < length self.old }
        requires value { value ≤ MAX_TOKENS }
        ensures { self.new ≡ slice_set self.old cell (Some value) }
    {
        self.cells[cell as usize] = Some(value);
    }

    /// Forgets all values.
    pub fn clear(&mut self)
        ensures { self.new ≡ replicate (length self.old) None }
    {
        self.cells.fill(None);
    }

    /// Takes over what another overlay of as many cells has.
    pub fn take_over(&mut self, other: &Overlay)
        requires { length other.now ≡ length self.old }
        ensures { self.new ≡ other.now }
    {
        self.cells.copy_from_slice(&other.cells);
    }
}

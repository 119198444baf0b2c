//! The plain view: a whole marking.
ghost use Rattle.std.specs.Prelude.{◌≡◌, ◌<◌, ◌≤◌, length};
ghost use Rattle.san_expr.specs.View.{ViewState, ReadsCell, assigned, plain};

use crate::view::{Cells, Marked};
use std::marker::Model;

/// A whole marking, a number for each cell, which is its own view: each cell is its own, and no
/// read is noted.
#[derive(Debug, Drop)]
pub struct Marking {
    values: Vec<u32>,
}

impl Model for Marking {
    ghost use Rattle.std.specs.Prelude.{ℕ, List};

    ghost Value = { List ℕ };

    ghost view = { λ m. m.values.items };
}

impl Marking {
    /// A marking of these values, one for each cell.
    pub fn new(values: Vec<u32>) -> Marking
        ensures { result ≡ values.items }
    {
        Marking { values }
    }

    /// The values.
    pub fn as_slice(&self) -> &[u32]
        ensures { result.now ≡ self.now }
    {
        self.values.as_slice()
    }
}

impl Marked for Marking {
    ghost view_state = { plain };

    fn read(&mut self, place: u32) -> u32 {
        self.values[place as usize]
    }
}

impl Cells for Marking {
    fn set(&mut self, place: u32, value: u32) {
        self.values[place as usize] = value;
    }
}

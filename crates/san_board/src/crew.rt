//! How many have a pass of a board.

ghost use Rattle.std.specs.Prelude.{ℕ};

use std::marker::Brand;
use std::sync::ledger::Ledger;

/// The ledger of a board's steps, and how many passes there are: one for each worker, and the caller's.
pub trait Crew: Ledger {
    ghost passes: { ℕ };
}

impl Crew for Brand {
    ghost passes = { 0 };
}

//! What is looked at decides: an evaluation by its cells, a piece by the shared values that it read.
#![tactic(auto)]

mod laws;

pub use laws::{
    a_run_is_booked, every_core_follows_its_run, looked_cells_decide, what_a_piece_reads_decides_it,
};

//! Pieces of one leaf's work, made ahead from logged reads, whose type keeps that they are sound.
#![tactic(auto)]

mod block;
mod cells;
mod completion;
mod first;
mod gather;
mod laws;
mod leaf_view;
mod make;
mod outcome;
mod piece;
mod rates;
mod recorder;
mod renewal;
mod same;
mod state;
mod work;

pub use first::first_state;
pub use laws::{
    blocks_are_the_laws, claims_of_a_network_fit, first_states_fit, timers_are_of_timed_activities,
};
pub use leaf_view::View;
pub use make::make_piece;
pub use outcome::{Fault, Outcome};
pub use piece::{Claim, Piece};
pub use recorder::Impulse;
pub use same::same_state;
pub use state::{LeafState, copy_state};

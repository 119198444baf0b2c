//! The checks of a model: from its syntax to a model that passed them all, or to the first word
//! at which one fails.
#![tactic(auto)]

mod build;
mod codes;
mod known;
mod laws;
mod limits;
mod model;
mod place;
mod table;
mod tree;
mod walk;

pub use laws::{
    atomics_are_accepted, entries_are_of_words, parsed_is_formed, places_stay_apart,
    sharing_keeps_places,
};
pub use model::{Model, check};
pub use tree::CheckFault;

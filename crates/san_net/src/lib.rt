//! Activities, atomics and parts, what an activity does on a view of its leaf's cells, and the flat
//! network of parts.
#![tactic(auto)]

mod activity;
mod atomic;
mod below;
mod cells;
mod choice;
mod completion;
mod examples;
mod first;
mod flat;
mod laws;
mod order;
mod part;
mod path;
mod predicate;
mod tables;

pub use activity::{ActKind, Activity, Case, Input, MAX_CASES, Output};
pub use atomic::{Atomic, ImpulseTerm, MAX_ATOMIC_ACTS, MAX_TERMS, RateTerm};
pub use below::{activity_below, acts_below};
pub use cells::{LeafCells, copy_cells, gather, same_values, scatter};
pub use completion::complete;
pub use examples::{
    bounds_of_terms, example_leaves, example_network, example_pair, example_rewards, example_run,
};
pub use first::{FirstInstant, first_instant};
pub use flat::Flat;
pub use laws::{
    accepted_cells_are_its_own, activities_concern_their_cells, networks_are_lawful,
    networks_are_made, the_first_is_the_leafs,
};
pub use order::instants;
pub use part::{MAX_REWARDS, Part, Reward, Slot, Span};
pub use path::Path;
pub use predicate::enabled;

//! Generated models: the texts of a farm and of a ring of as many copies as wanted.
#![tactic(auto)]

mod farm;
mod lines;
mod model;
mod ring;

pub use model::{MAX_COPIES, MIN_COPIES, ModelKind, model_of};

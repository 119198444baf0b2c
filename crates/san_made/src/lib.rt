//! The law of the generated models: each of them is accepted.
#![tactic(auto)]

mod laws;

pub use laws::generated_models_are_accepted;

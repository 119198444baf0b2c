//! The flat network of a model: its leaves over the places that their cells become.
#![tactic(auto)]

mod home;
mod initial;
mod leaf;
mod network;
mod numbers;
mod parts;
mod path;
mod seen;

pub use network::{FlatFault, flatten};

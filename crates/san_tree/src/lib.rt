//! The composition tree of a model: its leaves, and the homes of their places.
#![tactic(auto)]

mod counts;
mod home;
mod instance;
mod laws;
mod limits;
mod node;
mod share;
mod shared;
mod tree;
mod valid;

pub use home::Home;
pub use instance::Instance;
pub use laws::{homes_apart, homes_keep, paths_lead, shares_apart};
pub use limits::{MAX_CHILDREN, MAX_NODES, MAX_PATH, MAX_SHARES};
pub use node::Node;
pub use san_base::{Items, Name, NoMemory};
pub use share::Share;
pub use tree::{Homes, Tree};

//! What is made ahead of the committed time: how the versions of the shared places follow the pieces
//! of the leaves.
#![tactic(auto)]

mod ahead;
mod chains;
mod lines;
mod next;

pub use ahead::Ahead;
pub use chains::{current_pieces, cut_chain, push_piece, sees_all};
pub use lines::{commit_writes, put_writes, reserve_writes, withdraw_writes};

//! The lines of a report: each completion, the ending, and each reward; and how they go out.
#![tactic(auto)]

mod last_lines;
mod line;
mod pages;
mod path;
mod pieces;
#[cfg(test)]
mod tests;
mod vec_sink;
mod worth;

pub use last_lines::{close, worth_at};
pub use line::{ending_line, event_line, put_ending, put_event};
pub use pages::{Line, Pages};
pub use pieces::push_pieces;
pub use worth::{put_reward, reward_line};

//! The canonical text of a syntax.
#![tactic(auto)]

mod activity;
mod expression;
mod laws;
mod list;
mod model;
mod page;
mod statement;
mod text;

pub use laws::shown_text_is_read_again;
pub use text::show;

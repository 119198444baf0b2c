//! Workers that make pieces ahead over a board, and a stretch of a run by them.
#![tactic(auto)]

mod finish;
mod gate;
mod maker;
mod setting;
mod stretching;
mod turn;
mod working;

pub use gate::{Gate, NoGate, Point};
pub use maker::PieceMaker;
pub use setting::Setting;
pub use stretching::stretch;
pub use working::work;

//! The timers of a leaf: their renewal over a leaf's values, and a completion with the next case draw.
//! A sequential run, a piece of a leaf and a checker of runs all stand on it.
#![tactic(auto)]

mod ask;
mod clock;
mod completion;
mod drawn;
mod due;
mod renewal;
mod row;
mod view;

pub use completion::complete_act;
pub use drawn::{delay_tables, drawn_streams};
pub use due::least_of;
pub use renewal::{Renewal, renew};
pub use row::{Row, Timer};
pub use view::PlainView;

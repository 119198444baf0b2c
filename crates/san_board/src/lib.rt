//! Boards: a core that several workers share, behind a lock.
#![tactic(auto)]

mod answers;
mod crew;
mod desk;
mod fake;
mod locked;
mod pass;
mod trick;
mod tricky;

pub use crew::Crew;
pub use fake::{FakeBoard, FakePass};
pub use locked::LockBoard;
pub use pass::Pass;
pub use trick::Trick;

//! What every crate of the simulator speaks of: numbers, answers, text, and the outside.
#![tactic(auto)]

mod bounds;
mod ending;
mod limits;
mod memory;
mod name;
mod numbers;
mod op;
mod piece;
mod same;
mod shared;
mod sink;
mod source;
mod status;
mod sure;
mod term;

pub use bounds::rated;
pub use ending::{Ending, Event, Stop, Trap};
pub use limits::{
    Limits, MAX_ACTS, MAX_BURST, MAX_CELLS, MAX_COMPLETIONS, MAX_DELAY, MAX_DRAWS,
    MAX_EVENT_IMPULSES, MAX_EVENTS, MAX_HORIZON, MAX_IMPULSES, MAX_LEAVES, MAX_MODEL_BYTES,
    MAX_NAME_BYTES, MAX_PLACES, MAX_PRIORITY, MAX_RATED, MAX_ROLLBACKS, MAX_TEXT_BYTES, MAX_TICKS,
    MAX_TIME, MAX_TOKENS, MAX_WEIGHT, MAX_WINDOW, MAX_WORKERS,
};
pub use memory::{MemSink, MemSource};
pub use name::Name;
pub use numbers::{ActId, LeafId, NoMemory, PlaceId, Tick};
pub use op::Op;
pub use piece::{Kind, Linked, Stamp};
pub use same::{Same, all_same};
pub use shared::Shared;
pub use sink::{Put, Sink, put_all};
pub use source::{Read, Source, Taking, take_all};
pub use sqlite_items::{Boxed, Items};
pub use status::Status;
pub use sure::{SureSink, SureSource};
pub use term::Rated;

//! The bounds that a run is given, and the limits of texts, models and runs.

use crate::numbers::Tick;

/// The bytes of the longest text that is parsed.
pub const MAX_TEXT_BYTES: usize = 67_108_864;

/// The bytes of the longest model that a program reads.
pub const MAX_MODEL_BYTES: u32 = 1_048_576;

/// The bytes of the longest name.
pub const MAX_NAME_BYTES: usize = 64;

/// The leaves of the largest network.
pub const MAX_LEAVES: u32 = 4_096;

/// The places of the largest network.
pub const MAX_PLACES: u32 = 65_536;

/// The activities of the largest network.
pub const MAX_ACTS: u32 = 65_536;

/// The cells of the largest atomic model.
pub const MAX_CELLS: u32 = 256;

/// The tokens of the fullest place.
pub const MAX_TOKENS: u32 = 2_147_483_647;

/// The longest delay, in ticks.
pub const MAX_DELAY: u64 = 4_294_967_296;

/// The greatest sum of the weights of an activity's cases, or of a table.
pub const MAX_WEIGHT: u64 = 4_294_967_296;

/// The last tick of the longest run.
pub const MAX_HORIZON: u64 = 1_000_000_000_000;

/// The greatest burst limit, in completions.
pub const MAX_BURST: u32 = 10_000;

/// The greatest event limit, in completions.
pub const MAX_EVENTS: u64 = 10_000_000;

/// The most threads that run ahead, beside the caller.
pub const MAX_WORKERS: u32 = 64;

/// The widest window, in pieces.
pub const MAX_WINDOW: u32 = 64;

/// The greatest limit of rollbacks.
pub const MAX_ROLLBACKS: u64 = 1_000_000;

/// The greatest value, and with a minus the least, at which a reward's term is no fault.
pub const MAX_RATED: u64 = 1_000_000_000;

/// More than any sum of a reward's terms comes to, with either sign: 2^96.
pub const MAX_WORTH: u128 = 79_228_162_514_264_337_593_543_950_336;

/// The most impulses of one completion: 16 terms for each of 64 rewards.
pub const MAX_EVENT_IMPULSES: u64 = 1_024;

/// More impulses than any run counts.
pub const MAX_IMPULSES: u64 = 1_099_511_627_776;

/// More draws than any run takes of a stream.
pub const MAX_DRAWS: u64 = 1_099_511_627_776;

/// More completions than any run has.
pub const MAX_COMPLETIONS: u64 = 1_099_511_627_776;

/// More ticks than any run has.
pub const MAX_TICKS: u64 = 1_099_511_627_776;

/// A time beyond all runs, to which the longest delay can be added.
pub const MAX_TIME: u64 = 4_611_686_018_427_387_904;

/// The greatest priority of an instantaneous activity.
pub const MAX_PRIORITY: u64 = 1_000;

/// The bounds that a run is given; what ranges they have, the definition `IsInRange` tells.
#[derive(Clone, Copy, Debug, PartialEq, Eq)]
pub struct Limits {
    /// The last tick of the run.
    pub horizon: Tick,
    /// Instantaneous completions that may follow one timed completion.
    pub burst: u32,
    /// Completions that the whole run may have.
    pub events: u64,
    /// Pieces that each leaf may be ahead of the committed time.
    pub window: u32,
    /// Rollbacks after which no piece is made ahead any more.
    pub rollbacks: u64,
}

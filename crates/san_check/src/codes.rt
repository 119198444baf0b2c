//! The codes of the checks. At one word the least one that holds is that of the refusal.

/// The name was declared before.
pub(crate) const NAME_TAKEN: u32 = 20;

/// The atomic declares no such place.
pub(crate) const UNKNOWN_PLACE: u32 = 21;

/// No such model is declared above.
pub(crate) const UNKNOWN_MODEL: u32 = 22;

/// A reward is on what isn't an atomic.
pub(crate) const NO_ATOMIC: u32 = 23;

/// An impulse is on what isn't an activity of the atomic.
pub(crate) const UNKNOWN_ACTIVITY: u32 = 24;

/// A share names a child that the join doesn't have.
pub(crate) const UNKNOWN_CHILD: u32 = 25;

/// A share names a place that the child doesn't show.
pub(crate) const PLACE_NOT_SHOWN: u32 = 26;

/// A share names a child twice.
pub(crate) const CHILD_NAMED_TWICE: u32 = 27;

/// An earlier share of the join took the place.
pub(crate) const PLACE_TAKEN: u32 = 28;

/// The place has another initial value than the share's first one.
pub(crate) const INITIALS_DIFFER: u32 = 29;

/// The copied model doesn't show the place.
pub(crate) const COPY_SHOWS_NO_SUCH_PLACE: u32 = 30;

/// The initial value is above the tokens that a place may have.
pub(crate) const INITIAL_TOO_LARGE: u32 = 31;

/// The weight of an arc is out of its range.
pub(crate) const ARC_WEIGHT: u32 = 32;

/// The two numbers of a geometric delay are no chance.
pub(crate) const GEOMETRIC_CHANCE: u32 = 33;

/// A delay of a table is out of its range.
pub(crate) const TABLE_DELAY: u32 = 34;

/// A weight of a table makes the sum too large.
pub(crate) const WEIGHTS_TOO_LARGE: u32 = 35;

/// All weights of a table are 0; found at the last.
pub(crate) const WEIGHTS_ARE_ZERO: u32 = 36;

/// The number of copies is out of its range.
pub(crate) const COPIES: u32 = 37;

/// An interval ends before it begins, or an interval or tick is too late.
pub(crate) const INTERVAL: u32 = 38;

/// A reward at one tick has an impulse.
pub(crate) const IMPULSE_AT_A_TICK: u32 = 39;

/// The place is one cell too many in its atomic.
pub(crate) const TOO_MANY_CELLS: u32 = 40;

/// The atomic has too many activities.
pub(crate) const TOO_MANY_ACTS: u32 = 41;

/// The text has too many models.
pub(crate) const TOO_MANY_MODELS: u32 = 42;

/// The join has too many children.
pub(crate) const TOO_MANY_CHILDREN: u32 = 43;

/// The join or replicate has too many shares.
pub(crate) const TOO_MANY_SHARES: u32 = 44;

/// The text has too many rewards.
pub(crate) const TOO_MANY_REWARDS: u32 = 45;

/// The table has too many entries.
pub(crate) const TOO_MANY_ENTRIES: u32 = 46;

/// The reward has too many terms.
pub(crate) const TOO_MANY_TERMS: u32 = 47;

/// The priority is above the greatest one.
pub(crate) const PRIORITY_TOO_LARGE: u32 = 49;

/// The length is 0, or makes too many cells of its atomic.
pub(crate) const ARRAY_LENGTH: u32 = 53;

/// An array has no index, or what is no array has one.
pub(crate) const INDEX_MISMATCH: u32 = 54;

/// The place has another length than the share's first one.
pub(crate) const LENGTHS_DIFFER: u32 = 55;

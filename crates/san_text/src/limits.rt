//! The versions of the language, and how far its texts may nest.

/// The first version.
pub(crate) const FIRST_VERSION: u64 = 1;

/// The first version with priorities of instantaneous activities.
pub(crate) const PRIORITIES_VERSION: u64 = 2;

/// The version with arrays.
pub(crate) const ARRAYS_VERSION: u64 = 3;

/// The last version.
pub(crate) const LAST_VERSION: u64 = 3;

/// The braces that may be open at once.
pub(crate) const MAX_BRACES: u32 = 16;

/// The braces that may be opened inside an activity, which stands in two.
pub(crate) const ACTIVITY_BRACES: u32 = MAX_BRACES - 2;

/// The braces that may be opened inside a case of an activity.
pub(crate) const CASE_BRACES: u32 = MAX_BRACES - 3;

/// The words of the longest expression.
pub(crate) const MAX_EXPRESSION_WORDS: u32 = 128;

/// More signs and brackets than an expression can stand in, since each is a word of it.
pub(crate) const EXPRESSION_DEPTH: u32 = MAX_EXPRESSION_WORDS + 1;

/// The level of the operators that bind loosest; that of those that bind tightest is 1.
pub(crate) const LOOSEST_LEVEL: u32 = 5;

/// The level of comparisons, of which no two stand in a row.
pub(crate) const COMPARISON_LEVEL: u32 = 3;

//! How large a tree may be.

use san_base::MAX_LEAVES;

/// The nodes of the largest tree.
pub const MAX_NODES: usize = 256;

/// The children of the widest join.
pub const MAX_CHILDREN: usize = 1024;

/// The places that a join or replicate may show.
pub const MAX_SHARES: usize = 1024;

/// The numbers of the longest path, since each node names earlier ones alone.
pub const MAX_PATH: usize = MAX_NODES - 1;

/// The count of leaves that stands for all that are more than a network may have.
pub(crate) const MANY_LEAVES: u32 = MAX_LEAVES + 1;

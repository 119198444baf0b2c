//! The shares of a join.

ghost use Rattle.std.specs.Prelude.{◌≡◌, ◌<◌, length, position, IfSome};
ghost use Rattle.san_tree.specs.Places.{names};

use san_base::Name;
use sqlite_items::Items;

/// A share of a join: one place of each of some children, which become one place of the join.
#[derive(Debug, Drop)]
pub struct Share {
    pub name: Name,
    /// The number of a child, and that of its place.
    pub parts: Items<(u32, u32)>,
}

impl Share {
    /// Whether a place of a child is among the parts.
    pub fn names(&self, child: u32, place: u32) -> bool
        ensures { result ≡ names child place self.now }
    {
        self.parts
            .as_slice()
            .iter()
            .any(|part| part.0 == child && part.1 == place)
    }
}

/// The number of the first share that names a place of a child.
pub(crate) fn first_naming(shares: &[Share], child: u32, place: u32) -> Option<usize>
    ensures value { result ≡ position (names child place) shares.now }
    ensures within { IfSome result (λ p. p < length shares.now) }
{
    shares.iter().position(|share| share.names(child, place))
}

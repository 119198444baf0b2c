//! The path of a leaf, as text.

ghost use Rattle.std.specs.Prelude.{◌≡◌};

use san_base::Same;
use sqlite_items::Items;
use std::marker::Model;

/// The path of a leaf in its tree, as text, which contracts see as its bytes.
#[derive(Debug, Drop)]
pub struct Path {
    bytes: Items<u8>,
}

impl Model for Path {
    ghost use Rattle.std.specs.Prelude.{ℕ, List};

    ghost Value = { List ℕ };

    ghost view = { λ p. p.bytes };
}

impl Path {
    /// The path of these bytes.
    pub fn new(bytes: Vec<u8>) -> Path
        ensures { result ≡ bytes.items }
    {
        Path {
            bytes: Items::from_vec(bytes),
        }
    }

    /// The bytes.
    pub fn as_bytes(&self) -> &[u8]
        ensures { result.now ≡ self.now }
    {
        self.bytes.as_slice()
    }
}

impl Same for Path {
    fn same(&self, other: &Path) -> bool {
        self.as_bytes() == other.as_bytes()
    }
}

//! The names that a model's author gives.

ghost use Rattle.std.specs.Prelude.{◌≡◌, ◌↔◌, ◌<◌, ◌≤◌, length, IfOk, IsTrue};

use crate::limits::MAX_NAME_BYTES;
use crate::numbers::NoMemory;
use sqlite_items::Items;
use std::alloc::Global;
use std::marker::Model;

/// Text of 1 to 64 bytes, which contracts see as its bytes.
#[derive(Debug, Drop)]
pub struct Name {
    bytes: Items<u8>,
}

impl Model for Name {
    ghost use Rattle.std.specs.Prelude.{ℕ, ◌<◌, ◌≤◌, List, length};
    ghost use Rattle.san_base.specs.declared.limits.TheConstants.{MAX_NAME_BYTES};

    ghost Value = { List ℕ };

    ghost view = { λ n. n.bytes };

    ghost invariant = { λ n. (0 < length n.bytes) × (length n.bytes ≤ MAX_NAME_BYTES) };
}

impl Name {
    /// A name of these bytes.
    pub fn new(alloc: Global, text: &[u8]) -> Result<Name, NoMemory>
        requires some { 0 < length text.now }
        requires short { length text.now ≤ MAX_NAME_BYTES }
        ensures { IfOk result (λ name. name ≡ text.now) }
    {
        Ok(Name {
            bytes: Items::from_slice(alloc, text)?,
        })
    }

    /// Its bytes.
    pub fn as_bytes(&self) -> &[u8]
        ensures value { result.now ≡ self.now }
        ensures some { 0 < length self.now }
        ensures short { length self.now ≤ MAX_NAME_BYTES }
    {
        self.bytes.as_slice()
    }

    /// Whether both have the same bytes.
    pub fn same(&self, other: &Name) -> bool
        ensures { IsTrue result ↔ (self.now ≡ other.now) }
    {
        self.as_bytes() == other.as_bytes()
    }
}

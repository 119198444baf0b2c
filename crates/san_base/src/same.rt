//! Equality of values that are compared part by part.

ghost use Rattle.std.specs.Prelude.{◌≡◌, ◌↔◌, IsTrue};

use crate::name::Name;
use sqlite_items::Items;

/// Equality of values, and of lists of them.
pub trait Same {
    /// Whether both are equal, part by part.
    fn same(&self, other: &Self) -> bool
        ensures { IsTrue result ↔ (self.now ≡ other.now) };
}

/// Whether two lists have the same items.
#[tactic(auto, using(crate::proofs::SameLemmas::same_turn, crate::proofs::SameLemmas::same_all, crate::proofs::SameLemmas::at_same))]
pub fn all_same<T: Same>(a: &[T], b: &[T]) -> bool
    ensures { IsTrue result ↔ (a.now ≡ b.now) }
{
    if a.len() != b.len() {
        return false;
    }
    let mut at = 0;
    'next: while at < a.len() {
        if !a[at].same(&b[at]) {
            return false;
        }
        at += 1;
    }
    true
}

impl<T: Same> Same for Items<T> {
    fn same(&self, other: &Items<T>) -> bool {
        all_same(self.as_slice(), other.as_slice())
    }
}

impl<A: Same, B: Same> Same for (A, B) {
    fn same(&self, other: &(A, B)) -> bool {
        self.0.same(&other.0) && self.1.same(&other.1)
    }
}

impl<T: Same> Same for Option<T> {
    fn same(&self, other: &Option<T>) -> bool {
        match (self, other) {
            (Some(x), Some(y)) => x.same(y),
            (None, None) => true,
            _ => false,
        }
    }
}

impl Same for Name {
    fn same(&self, other: &Name) -> bool {
        Name::same(self, other)
    }
}

impl Same for u32 {
    fn same(&self, other: &u32) -> bool {
        *self == *other
    }
}

impl Same for u64 {
    fn same(&self, other: &u64) -> bool {
        *self == *other
    }
}

impl Same for i64 {
    fn same(&self, other: &i64) -> bool {
        *self == *other
    }
}

impl Same for i128 {
    fn same(&self, other: &i128) -> bool {
        *self == *other
    }
}

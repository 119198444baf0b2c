//! A version of a place's value, its order, and who sees it.

ghost use Rattle.std.specs.Prelude.{◌≡◌, nat_eq};
ghost use Rattle.san_line.specs.Lines.{before as comes_before, sees as is_seen, sees_now};

use san_base::{LeafId, Stamp, Tick};

/// A value that a piece of a leaf gave a place: when, by which leaf, by the leaf's piece of which
/// number.
#[derive(Clone, Copy, Debug, PartialEq, Eq)]
pub struct Version {
    pub time: Tick,
    pub leaf: LeafId,
    pub pos: u64,
    pub value: u32,
}

/// Whether a version comes before another, by time, then leaf, then number.
pub(crate) fn before(v: &Version, w: &Version) -> bool
    ensures { result ≡ comes_before v.now w.now }
{
    v.time.0 < w.time.0
        || (v.time.0 == w.time.0
            && (v.leaf.0 < w.leaf.0 || (v.leaf.0 == w.leaf.0 && v.pos < w.pos)))
}

/// Whether a stamp sees a version at its own time.
fn sees_now(stamp: Stamp, v: &Version) -> bool
    ensures { result ≡ sees_now (nat_eq v.now.leaf.0 stamp.leaf.0) stamp v.now }
{
    if v.leaf.0 == stamp.leaf.0 {
        v.pos < stamp.pos
    } else {
        stamp.all || v.leaf.0 < stamp.leaf.0
    }
}

/// Whether a stamp sees a version.
pub(crate) fn sees(stamp: Stamp, v: &Version) -> bool
    ensures { result ≡ is_seen stamp v.now }
{
    v.time.0 < stamp.time.0 || (v.time.0 == stamp.time.0 && sees_now(stamp, v))
}

//! Writing what a piece assigned into the shared values.

ghost use Rattle.std.specs.Prelude.{◌≡◌, ◌<◌, All, length, map};
ghost use Rattle.san_law.specs.Core.{put};
ghost use Rattle.san_leaf.specs.States.{pair_in};

use san_base::PlaceId;

/// Writes a piece's values, from the last to the first.
pub(crate) fn write_all(writes: &[(PlaceId, u32)], shared: &mut Vec<u32>)
    requires { All (λ w. w.0.0 < length shared.old.items) writes.now }
    ensures { shared.new.items ≡ put (map pair_in writes.now) shared.old.items }
{
    let mut at = writes.len();
    'each: while at > 0 {
        at -= 1;
        let (place, value) = writes[at];
        shared[place.0 as usize] = value;
    }
}

//! What a leaf has of its atomic.

ghost use Rattle.std.specs.Prelude.{◌≡◌, ◌+◌, length, min};
ghost use Rattle.san_base.specs.declared.limits.TheConstants.{MAX_ACTS};
ghost use Rattle.san_flat.specs.Homes.{cells_at};
ghost use Rattle.san_flat.specs.Networks.{atomic_at};

use san_base::MAX_ACTS;
use san_check::Model;

/// The cells of an atomic, of each its place and element, or none where there is no such atomic.
pub(crate) fn cells_of(model: &Model, atomic: u32) -> &[(u32, u32)]
    ensures { result.now ≡ cells_at model.now.cells atomic }
{
    match model.cells().get(atomic as usize) {
        Some(cells) => cells.as_slice(),
        None => &[],
    }
}

/// Their initial values.
pub(crate) fn initial_of(model: &Model, atomic: u32) -> &[u32]
    ensures { result.now ≡ (atomic_at model.now.atomics atomic).initial }
{
    match model.atomics().get(atomic as usize) {
        Some(atomic) => atomic.get().initial.as_slice(),
        None => &[],
    }
}

/// The number of the activities of an atomic, or one more than a network may have where it has more.
pub(crate) fn acts_of(model: &Model, atomic: u32) -> u32
    ensures { result ≡ min (length (atomic_at model.now.atomics atomic).acts) (MAX_ACTS + 1) }
{
    match model.atomics().get(atomic as usize) {
        Some(atomic) => atomic.get().acts.len().min(MAX_ACTS as usize + 1) as u32,
        None => 0,
    }
}

//! By which weights a leaf's activities look at its cells.

ghost use Rattle.std.specs.Prelude.{◌≡◌};
ghost use Rattle.san_seq.specs.inner.Wakes.{weight_at};

use san_expr::mentions;
use san_net::Input;

/// What of a leaf a change may concern.
#[derive(Clone, Copy, Debug, PartialEq, Eq)]
pub(crate) enum Concern {
    /// Its instantaneous activities: whether one of them is enabled or traps.
    Instants,
    /// Its timers: whether one of them is to be renewed.
    Timers,
}

/// By which weight a predicate looks at a cell, if it does: an arc by its own, a gate by 0.
pub(crate) fn weight_at(input: &Input, cell: u32) -> Option<u32>
    ensures { result ≡ weight_at input.now cell }
{
    match input {
        Input::Arc(place, weight) => (*place == cell).then_some(*weight),
        Input::Gate(e, _) => mentions(e, cell).then_some(0),
    }
}

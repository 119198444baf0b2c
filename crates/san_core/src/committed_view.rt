//! The committed values, as a piece reads them.

ghost use Rattle.std.specs.Prelude.{◌≡◌, [], Some};
ghost use Rattle.san_expr.specs.Concerns.{IsMarking};

use san_base::PlaceId;
use san_leaf::View;
use std::marker::Model;

/// The values of the shared places; a place that isn't one of them has none, and reads as 0.
#[derive(Drop)]
pub(crate) struct CommittedView<'a> {
    shared: &'a [u32],
}

impl<'a> Model for CommittedView<'a> {
    ghost use Rattle.std.specs.Prelude.{List, ℕ};
    ghost use Rattle.san_expr.specs.Concerns.{IsMarking};

    ghost Value = { List ℕ };

    ghost view = { λ v. v.shared.now };

    ghost invariant = { λ v. IsMarking v.shared.now };
}

impl<'a> CommittedView<'a> {
    /// Of these values.
    pub(crate) fn new(shared: &'a [u32]) -> CommittedView<'a>
        requires { IsMarking shared.now }
        ensures { result ≡ shared.now }
    {
        CommittedView { shared }
    }
}

impl<'a> View for CommittedView<'a> {
    ghost marking = { λ v. Some v };

    ghost kept = { λ v. [] };

    fn read(&mut self, place: PlaceId) -> u32 {
        let shared = self.shared;
        let at = place.0 as usize;
        if at < shared.len() { shared[at] } else { 0 }
    }
}

//! Views whose reading changes nothing.

ghost use Rattle.std.specs.Prelude.{◌≡◌, List, ℕ, refl};
ghost use Rattle.san_expr.specs.View.{plain};

use san_expr::{Marked, Marking};
use san_net::LeafCells;

/// A view that is just a list of values, each of them its own.
pub trait PlainView: Marked {
    ghost values: { Self → List ℕ };

    ghost shows: { (v : Self) → Self.view_state v ≡ plain (values v) };
}

impl<'a> PlainView for LeafCells<'a> {
    ghost values = { λ v. v };

    ghost shows = { λ v. refl };
}

impl PlainView for Marking {
    ghost values = { λ v. v };

    ghost shows = { λ v. refl };
}

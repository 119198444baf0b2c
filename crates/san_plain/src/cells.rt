//! The value of an impulse term over a leaf's cells.

ghost use Rattle.std.specs.Prelude.{◌≡◌, IsTrue, length, map};
ghost use Rattle.san_base.specs.Rated.{term_value};
ghost use Rattle.san_expr.specs.Below.{places_below};
ghost use Rattle.san_law.specs.Lawful.{AllBelow};
ghost use Rattle.san_law.specs.State.{gather};
ghost use Rattle.san_net.specs.Laid.{place_of};
ghost use Rattle.san_net.specs.Leaf.{impulse_in};

use san_base::{Rated, rated};
use san_expr::eval;
use san_net::{ImpulseTerm, LeafCells, Slot};

/// An impulse term's value over a leaf's cells.
pub(crate) fn impulse_in(term: &ImpulseTerm, slots: &[Slot], marking: &[u32]) -> Rated
    requires places { IsTrue (places_below term.now.expr (length slots.now)) }
    requires over { AllBelow (map place_of slots.now) (length marking.now) }
    ensures { term_value result
        ≡ (impulse_in (gather (map place_of slots.now) marking.now) term.now).rated }
{
    let mut cells = LeafCells::new(slots, marking);
    rated(eval(&term.expr, &mut cells))
}

//! The rate terms of an atomic in a leaf's values.

ghost use Rattle.std.specs.Prelude.{◌≡◌, All, IfOk, IsTrue, length, map};
ghost use Rattle.san_base.specs.Rated.{rated_by, term_value};
ghost use Rattle.san_expr.specs.Below.{places_below};
ghost use Rattle.san_expr.specs.Value.{value_of};
ghost use Rattle.san_net.specs.Leaf.{rate_in};

use san_base::{NoMemory, Rated, rated};
use san_expr::{Expr, Marking, eval};
use san_net::RateTerm;
use std::alloc::Global;

/// A term's value in a leaf's values.
fn rate(expr: &Expr, cells: &mut Marking) -> Rated
    requires { IsTrue (places_below expr.now (length cells.old)) }
    ensures rate { term_value result ≡ rated_by (value_of expr.now cells.old).answer }
    ensures same { cells.new ≡ cells.old }
{
    rated(eval(expr, cells))
}

/// The values of the terms, in their order.
pub(crate) fn rates(
    alloc: Global,
    terms: &[RateTerm],
    cells: &mut Marking,
) -> Result<Vec<Rated>, NoMemory>
    requires { All (λ t. IsTrue (places_below t.expr (length cells.old))) terms.now }
    ensures rates { IfOk result (λ v. map term_value v.items ≡ map (rate_in cells.old) terms.now) }
    ensures same { cells.new ≡ cells.old }
{
    let mut list = Vec::with_capacity(alloc, terms.len())?;
    'terms: for term in terms {
        list.push(rate(&term.expr, cells))?;
    }
    Ok(list)
}

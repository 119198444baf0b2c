//! Whether every cell of an expression, a statement or a distribution is below a number.
ghost use Rattle.std.specs.Prelude.{◌≡◌};
ghost use Rattle.san_expr.specs.Below.{array_below, places_below, stmt_below, stmts_below, dist_below};

use crate::dist::Dist;
use crate::expr::Expr;
use crate::stmt::Stmt;

fn array_below(first: u32, length: u32, places: u32) -> bool
    ensures { result ≡ array_below first length places }
{
    u64::from(first) + u64::from(length) <= u64::from(places)
}

/// Whether every cell of an expression is below a number.
pub fn places_below(e: &Expr, places: u32) -> bool
    ensures { result ≡ places_below e.now places }
{
    match e {
        Expr::Number(_) => true,
        Expr::Place(place) => *place < places,
        Expr::Cell(first, length, index) => {
            array_below(*first, *length, places) && places_below(index.get(), places)
        }
        Expr::Neg(inner) => places_below(inner.get(), places),
        Expr::Not(inner) => places_below(inner.get(), places),
        Expr::Binary(_, left, right) => {
            places_below(left.get(), places) && places_below(right.get(), places)
        }
    }
}

/// Whether every cell of the statements is below a number.
#[cycle(below)]
pub fn stmts_below(body: &[Stmt], places: u32) -> bool
    ensures { result ≡ stmts_below body.now places }
{
    for stmt in body {
        if !stmt_below(stmt, places) {
            return false;
        }
    }
    true
}

#[cycle(below)]
fn stmt_below(stmt: &Stmt, places: u32) -> bool
    ensures { result ≡ stmt_below stmt.now places }
{
    match stmt {
        Stmt::Set(place, e) => *place < places && places_below(e, places),
        Stmt::SetCell(first, length, index, e) => {
            array_below(*first, *length, places)
                && places_below(index, places)
                && places_below(e, places)
        }
        Stmt::If(e, then_body, else_body) => {
            places_below(e, places)
                && stmts_below(then_body.as_slice(), places)
                && stmts_below(else_body.as_slice(), places)
        }
    }
}

/// Whether every cell of a distribution is below a number.
pub fn dist_below(dist: &Dist, places: u32) -> bool
    ensures { result ≡ dist_below dist.now places }
{
    match dist {
        Dist::Det(e) => places_below(e, places),
        Dist::Uniform(low, high) => places_below(low, places) && places_below(high, places),
        Dist::Geom(_, _) => true,
        Dist::Table(_) => true,
    }
}

//! Whether an expression names a cell.

ghost use Rattle.std.specs.Prelude.{◌≡◌, ℕ};
ghost use Rattle.san_expr.specs.Mentions.{array_cells, mentions};

use crate::expr::Expr;

fn is_in_array(first: u32, length: u32, cell: u32) -> bool
    ensures { result ≡ array_cells first length cell }
{
    first <= cell && u64::from(cell) < u64::from(first) + u64::from(length)
}

/// Whether an expression names a cell, in any marking: an array that is indexed is named whole.
pub fn mentions(e: &Expr, cell: u32) -> bool
    ensures { result ≡ mentions e.now cell }
{
    match e {
        Expr::Number(_) => false,
        Expr::Place(place) => *place == cell,
        Expr::Cell(first, length, index) => {
            is_in_array(*first, *length, cell) || mentions(index.get(), cell)
        }
        Expr::Neg(inner) => mentions(inner.get(), cell),
        Expr::Not(inner) => mentions(inner.get(), cell),
        Expr::Binary(_, left, right) => mentions(left.get(), cell) || mentions(right.get(), cell),
    }
}

//! What statements make of a marking.
ghost use Rattle.std.specs.Prelude.{◌≡◌, ◌<◌, ℕ, IsTrue};
ghost use Rattle.san_expr.specs.Below.{array_below, places_below, stmt_below, stmts_below};
ghost use Rattle.san_expr.specs.Effect.{count_of, assign_at, effect_of, effects_of};
ghost use Rattle.san_expr.specs.Meaning.{settled, then_do};
ghost use Rattle.san_expr.specs.Meets.{Meets};
ghost use Rattle.san_expr.specs.Value.{cell_of, value_of};

use crate::expr::Expr;
use crate::stmt::Stmt;
use crate::value::{cell_of, eval, holds};
use crate::view::Cells;
use san_base::{MAX_TOKENS, Trap};

/// The number of tokens that a value is, or `Trap::Marking` where a place can't have so many.
pub fn count_of(x: i64) -> Result<u32, Trap>
    ensures { result ≡ count_of x }
{
    if 0 <= x && x <= i64::from(MAX_TOKENS) {
        Ok(x as u32)
    } else {
        Err(Trap::Marking)
    }
}

fn assign<V: Cells>(place: u32, x: i64, view: &mut V) -> Result<(), Trap>
    requires { place < (V.view_state view.old).places }
    ensures { Meets (V.view_state view.old) (V.view_state view.new) (assign_at place x) result }
{
    let count = count_of(x)?;
    view.set(place, count);
    Ok(())
}

fn assign_value<V: Cells>(place: u32, e: &Expr, view: &mut V) -> Result<(), Trap>
    requires place { place < (V.view_state view.old).places }
    requires value { IsTrue (places_below e.now (V.view_state view.old).places) }
    ensures { Meets (V.view_state view.old) (V.view_state view.new) (then_do (value_of e.now) (assign_at place)) result }
{
    let x = eval(e, view)?;
    assign(place, x, view)
}

/// Assigns an element of an array, by its index.
fn assign_cell<V: Cells>(
    first: u32,
    length: u32,
    index: i64,
    e: &Expr,
    view: &mut V,
) -> Result<(), Trap>
    requires array { IsTrue (array_below first length (V.view_state view.old).places) }
    requires value { IsTrue (places_below e.now (V.view_state view.old).places) }
    ensures { Meets (V.view_state view.old) (V.view_state view.new) (then_do (settled (cell_of first length index)) (λ p. then_do (value_of e.now) (assign_at p))) result }
{
    let place = cell_of(first, length, index)?;
    assign_value(place, e, view)
}

/// The effect of statements, in order; after a trap the view holds the assignments made before it.
#[cycle(stmts)]
pub fn run_stmts<V: Cells>(body: &[Stmt], view: &mut V) -> Result<(), Trap>
    requires { IsTrue (stmts_below body.now (V.view_state view.old).places) }
    ensures { Meets (V.view_state view.old) (V.view_state view.new) (effects_of body.now) result }
{
    for stmt in body {
        run_stmt(stmt, view)?;
    }
    Ok(())
}

#[cycle(stmts)]
fn run_stmt<V: Cells>(stmt: &Stmt, view: &mut V) -> Result<(), Trap>
    requires { IsTrue (stmt_below stmt.now (V.view_state view.old).places) }
    ensures { Meets (V.view_state view.old) (V.view_state view.new) (effect_of stmt.now) result }
{
    match stmt {
        Stmt::Set(place, e) => assign_value(*place, e, view),
        Stmt::SetCell(first, length, index, e) => {
            let at = eval(index, view)?;
            assign_cell(*first, *length, at, e, view)
        }
        Stmt::If(e, then_body, else_body) => {
            let x = eval(e, view)?;
            if holds(x) {
                run_stmts(then_body.as_slice(), view)
            } else {
                run_stmts(else_body.as_slice(), view)
            }
        }
    }
}

//! Expressions, statements and delays over the cells of an atomic.

ghost use Rattle.std.specs.Prelude.{◌≡◌, map, IfOk};
ghost use Rattle.san_check.specs.build.Expression.{expr_of, stmt_of, stmts_of, dist_of};

use crate::build::cells::{Cells, capped, cells_at};
use crate::table::Table;
use san_base::{Boxed, Items, NoMemory};
use san_expr::{Dist, Expr, Stmt};
use san_lex::MAX_NUMBER;
use san_text::{Ast, DistDecl, StmtDecl};
use std::alloc::Global;

/// An expression over an atomic's cells.
pub(crate) fn expr_of<'a>(
    alloc: Global,
    cells: &Table<'a, Cells>,
    e: &'a Ast,
) -> Result<Expr, NoMemory>
    ensures { IfOk result (λ x. x ≡ expr_of cells.now e.now) }
{
    match e {
        Ast::Number(n) => Ok(Expr::Number((*n).min(MAX_NUMBER) as i64)),
        Ast::Name(name) => Ok(Expr::Place(cells_at(cells, name).first)),
        Ast::Cell(name, index) => {
            let array = cells_at(cells, name);
            let index = expr_of(alloc, cells, index.get())?;
            Ok(Expr::Cell(array.first, array.length, Boxed::new(alloc, index)?))
        }
        Ast::Neg(inner) => {
            let inner = expr_of(alloc, cells, inner.get())?;
            Ok(Expr::Neg(Boxed::new(alloc, inner)?))
        }
        Ast::Not(inner) => {
            let inner = expr_of(alloc, cells, inner.get())?;
            Ok(Expr::Not(Boxed::new(alloc, inner)?))
        }
        Ast::Binary(op, left, right) => {
            let left = expr_of(alloc, cells, left.get())?;
            let right = expr_of(alloc, cells, right.get())?;
            Ok(Expr::Binary(*op, Boxed::new(alloc, left)?, Boxed::new(alloc, right)?))
        }
        Ast::Group(inner) => expr_of(alloc, cells, inner.get()),
    }
}

/// The statements of a block over an atomic's cells.
#[cycle(statements)]
pub(crate) fn stmts_of<'a>(
    alloc: Global,
    cells: &Table<'a, Cells>,
    body: &'a [StmtDecl],
) -> Result<Items<Stmt>, NoMemory>
    ensures { IfOk result (λ v. v ≡ stmts_of cells.now body.now) }
{
    let mut made = Vec::new(alloc);
    'stmts: for stmt in body {
        let next = stmt_of(alloc, cells, stmt)?;
        made.push(next)?;
    }
    Ok(Items::from_vec(made))
}

#[cycle(statements)]
fn stmt_of<'a>(
    alloc: Global,
    cells: &Table<'a, Cells>,
    stmt: &'a StmtDecl,
) -> Result<Stmt, NoMemory>
    ensures { IfOk result (λ s. s ≡ stmt_of cells.now stmt.now) }
{
    match stmt {
        StmtDecl::Set(name, value) => {
            let value = expr_of(alloc, cells, value)?;
            Ok(Stmt::Set(cells_at(cells, name).first, value))
        }
        StmtDecl::SetCell(name, index, value) => {
            let array = cells_at(cells, name);
            let index = expr_of(alloc, cells, index)?;
            let value = expr_of(alloc, cells, value)?;
            Ok(Stmt::SetCell(array.first, array.length, index, value))
        }
        StmtDecl::If(test, then_body, else_body) => {
            let test = expr_of(alloc, cells, test)?;
            let then_body = stmts_of(alloc, cells, then_body.as_slice())?;
            let else_body = stmts_of(alloc, cells, else_body.as_slice())?;
            Ok(Stmt::If(test, then_body, else_body))
        }
    }
}

/// A distribution of delays over an atomic's cells.
#[tactic(auto, unfolding(crate::specs::build::Expression::dist_of))]
pub(crate) fn dist_of<'a>(
    alloc: Global,
    cells: &Table<'a, Cells>,
    dist: &'a DistDecl,
) -> Result<Dist, NoMemory>
    ensures { IfOk result (λ d. d ≡ dist_of cells.now dist.now) }
{
    match dist {
        DistDecl::Det(e) => Ok(Dist::Det(expr_of(alloc, cells, e)?)),
        DistDecl::Uniform(low, high) => {
            let low = expr_of(alloc, cells, low)?;
            let high = expr_of(alloc, cells, high)?;
            Ok(Dist::Uniform(low, high))
        }
        DistDecl::Geom(p, q) => Ok(Dist::Geom(capped(*p), capped(*q))),
        DistDecl::Table(entries) => {
            Ok(Dist::Table(Items::from_slice(alloc, entries.as_slice())?))
        }
    }
}

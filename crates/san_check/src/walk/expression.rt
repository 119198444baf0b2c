//! The words of expressions and statements.

ghost use Rattle.std.specs.Prelude.{◌≡◌, None};
ghost use Rattle.san_check.specs.inner.Walks.{seen_all};
ghost use Rattle.san_check.specs.walk.Expression.{is_array, whole, element, entry, first_entries, expr_entries, stmt_entries, stmts_entries};

use crate::codes::{INDEX_MISMATCH, TOO_MANY_TERMS, UNKNOWN_PLACE};
use crate::place::Place;
use crate::table::Table;
use crate::walk::{Walk, code};
use san_base::Name;
use san_text::{Ast, StmtDecl};

fn is_array(place: Option<Place>) -> bool
    ensures { result ≡ is_array place }
{
    match place {
        Some(place) => place.length.is_some(),
        None => false,
    }
}

/// A place without an index.
#[tactic(auto, unfolding(crate::specs::walk::Expression::whole))]
pub(crate) fn whole<'a>(places: &Table<'a, Place>, name: &'a Name) -> Option<u32>
    ensures { result ≡ whole places.now name.now }
{
    let place = places.find(name.as_bytes()).copied();
    code(UNKNOWN_PLACE, place.is_none()).or(code(INDEX_MISMATCH, is_array(place)))
}

/// A place with an index.
#[tactic(auto, unfolding(crate::specs::walk::Expression::element))]
pub(crate) fn element<'a>(places: &Table<'a, Place>, name: &'a Name) -> Option<u32>
    ensures { result ≡ element places.now name.now }
{
    let place = places.find(name.as_bytes()).copied();
    code(UNKNOWN_PLACE, place.is_none()).or(code(INDEX_MISMATCH, !is_array(place)))
}

/// The code of a word, which may be the first of a reward's 17th term or a later one.
#[tactic(auto, unfolding(crate::specs::walk::Expression::entry))]
fn entry(late: bool, found: Option<u32>) -> Option<u32>
    ensures { result ≡ entry late found }
{
    match found {
        Some(code) if late => Some(code.min(TOO_MANY_TERMS)),
        None if late => Some(TOO_MANY_TERMS),
        _ => found,
    }
}

/// Walks an expression, whose first word may be late.
#[tactic(auto, using(crate::proofs::EntryLemmas::seen_append))]
pub(crate) fn walk_first<'a>(walk: &mut Walk, places: &Table<'a, Place>, e: &'a Ast, late: bool)
    ensures { walk.new ≡ seen_all walk.old (first_entries places.now e.now late) }
{
    match e {
        Ast::Number(_) => walk.see(entry(late, None)),
        Ast::Name(name) => walk.see(entry(late, whole(places, name))),
        Ast::Cell(name, index) => {
            walk.see(entry(late, element(places, name)));
            walk_first(walk, places, index.get(), false);
        }
        Ast::Neg(inner) => walk_first(walk, places, inner.get(), late),
        Ast::Not(inner) => walk_first(walk, places, inner.get(), late),
        Ast::Binary(_, left, right) => {
            walk_first(walk, places, left.get(), late);
            walk_first(walk, places, right.get(), false);
        }
        Ast::Group(inner) => walk_first(walk, places, inner.get(), late),
    }
}

pub(crate) fn walk_expr<'a>(walk: &mut Walk, places: &Table<'a, Place>, e: &'a Ast)
    ensures { walk.new ≡ seen_all walk.old (expr_entries places.now e.now) }
{
    walk_first(walk, places, e, false)
}

/// Walks the statements of a block.
#[cycle(blocks)]
#[tactic(auto, using(crate::proofs::EntryLemmas::seen_append))]
pub(crate) fn walk_stmts<'a>(walk: &mut Walk, places: &Table<'a, Place>, body: &'a [StmtDecl])
    ensures { walk.new ≡ seen_all walk.old (stmts_entries places.now body.now) }
{
    'stmts: for stmt in body {
        walk_stmt(walk, places, stmt);
    }
}

#[cycle(blocks)]
#[tactic(auto, using(crate::proofs::EntryLemmas::seen_append))]
fn walk_stmt<'a>(walk: &mut Walk, places: &Table<'a, Place>, stmt: &'a StmtDecl)
    ensures { walk.new ≡ seen_all walk.old (stmt_entries places.now stmt.now) }
{
    match stmt {
        StmtDecl::Set(name, value) => {
            walk.see(whole(places, name));
            walk_expr(walk, places, value);
        }
        StmtDecl::SetCell(name, index, value) => {
            walk.see(element(places, name));
            walk_expr(walk, places, index);
            walk_expr(walk, places, value);
        }
        StmtDecl::If(test, then_body, else_body) => {
            walk_expr(walk, places, test);
            walk_stmts(walk, places, then_body.as_slice());
            walk_stmts(walk, places, else_body.as_slice());
        }
    }
}

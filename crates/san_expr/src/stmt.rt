//! Statements of gates.
ghost use Rattle.std.specs.Prelude.{◌≡◌, ◌↔◌, IsTrue};

use crate::expr::Expr;
use san_base::Same;
use sqlite_items::Items;

/// A statement of a gate.
#[derive(Debug, Drop)]
pub enum Stmt {
    Set(u32, Expr),
    /// The first cell of an array, its length, the index, the value.
    SetCell(u32, u32, Expr, Expr),
    If(Expr, Items<Stmt>, Items<Stmt>),
}

impl Stmt {
    /// Whether two statements are equal node by node.
    #[cycle(same_stmts)]
    pub fn same(&self, other: &Stmt) -> bool
        ensures { IsTrue result ↔ (self.now ≡ other.now) }
    {
        match (self, other) {
            (Stmt::Set(p, x), Stmt::Set(q, y)) => p == q && x.same(y),
            (Stmt::SetCell(p, m, i, x), Stmt::SetCell(q, n, j, y)) => {
                p == q && m == n && i.same(j) && x.same(y)
            }
            (Stmt::If(x, a, b), Stmt::If(y, c, d)) => {
                x.same(y)
                    && same_stmts(a.as_slice(), c.as_slice())
                    && same_stmts(b.as_slice(), d.as_slice())
            }
            _ => false,
        }
    }
}

/// Whether two lists of statements are equal node by node.
#[cycle(same_stmts)]
pub fn same_stmts(a: &[Stmt], b: &[Stmt]) -> bool
    ensures { IsTrue result ↔ (a.now ≡ b.now) }
{
    if a.len() != b.len() {
        return false;
    }
    for (at, stmt) in a.iter().enumerate() {
        if !stmt.same(&b[at]) {
            return false;
        }
    }
    true
}

impl Same for Stmt {
    fn same(&self, other: &Stmt) -> bool {
        Stmt::same(self, other)
    }
}

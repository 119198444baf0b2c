//! Expressions over the cells of an atomic.
ghost use Rattle.std.specs.Prelude.{◌≡◌, ◌↔◌, IsTrue};

use san_base::{Op, Same};
use sqlite_items::Boxed;

/// An expression over the cells of one atomic, which are numbered from 0. A cell is a place, or one
/// element of an array.
#[derive(Debug, Drop)]
pub enum Expr {
    Number(i64),
    Place(u32),
    /// An element of an array: its first cell, its length, the index.
    Cell(u32, u32, Boxed<Expr>),
    Neg(Boxed<Expr>),
    Not(Boxed<Expr>),
    Binary(Op, Boxed<Expr>, Boxed<Expr>),
}

impl Expr {
    /// Whether two expressions are equal node by node.
    pub fn same(&self, other: &Expr) -> bool
        ensures { IsTrue result ↔ (self.now ≡ other.now) }
    {
        match (self, other) {
            (Expr::Number(m), Expr::Number(n)) => m == n,
            (Expr::Place(p), Expr::Place(q)) => p == q,
            (Expr::Cell(p, m, x), Expr::Cell(q, n, y)) => p == q && m == n && x.get().same(y.get()),
            (Expr::Neg(x), Expr::Neg(y)) => x.get().same(y.get()),
            (Expr::Not(x), Expr::Not(y)) => x.get().same(y.get()),
            (Expr::Binary(f, x, z), Expr::Binary(g, y, w)) => {
                f == g && x.get().same(y.get()) && z.get().same(w.get())
            }
            _ => false,
        }
    }
}

impl Same for Expr {
    fn same(&self, other: &Expr) -> bool {
        Expr::same(self, other)
    }
}

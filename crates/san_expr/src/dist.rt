//! Distributions of delays.
use crate::expr::Expr;
use san_base::Same;
use sqlite_items::Items;

/// How the delay of a timed activity is drawn, in ticks.
#[derive(Debug, Drop)]
pub enum Dist {
    Det(Expr),
    /// Each number from the first to the second is as likely.
    Uniform(Expr, Expr),
    /// Each tick ends the delay with probability P / Q.
    Geom(u32, u32),
    /// Delays and their weights, of which one is chosen.
    Table(Items<(u64, u64)>),
}

impl Same for Dist {
    fn same(&self, other: &Dist) -> bool {
        match (self, other) {
            (Dist::Det(x), Dist::Det(y)) => x.same(y),
            (Dist::Uniform(x, z), Dist::Uniform(y, w)) => x.same(y) && z.same(w),
            (Dist::Geom(p, q), Dist::Geom(r, s)) => p == r && q == s,
            (Dist::Table(x), Dist::Table(y)) => x.same(y),
            _ => false,
        }
    }
}

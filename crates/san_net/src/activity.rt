//! Activities: inputs, cases with outputs, and when they complete.

use san_base::Same;
use san_expr::{Dist, Expr, Stmt};
use sqlite_items::Items;

/// The cases of the activity with the most of them: each has a number.
pub const MAX_CASES: u32 = u32::MAX;

/// What an activity needs of the marking and takes from it, after Sanders and Meyer's input gates.
#[derive(Debug, Drop)]
pub enum Input {
    /// A cell and a weight: the cell has at least so many tokens, and loses them.
    Arc(u32, u32),
    /// The predicate and the function.
    Gate(Expr, Items<Stmt>),
}

/// What a case adds to the marking, after Sanders and Meyer's output gates.
#[derive(Debug, Drop)]
pub enum Output {
    /// A cell and a weight: the cell gets so many tokens.
    Arc(u32, u32),
    /// The function.
    Body(Items<Stmt>),
}

/// One way in which an activity completes; cases are chosen by their weights.
#[derive(Debug, Drop)]
pub struct Case {
    pub weight: Expr,
    pub outputs: Items<Output>,
}

/// When an activity completes.
#[derive(Debug, Drop)]
pub enum ActKind {
    /// After a delay. The pair is the activation predicate and the reactivation predicate.
    Timed {
        delay: Dist,
        pair: Option<(Expr, Expr)>,
    },
    /// At once; a greater priority goes first.
    Instant {
        priority: u32,
    },
}

/// An activity of an atomic.
#[derive(Debug, Drop)]
pub struct Activity {
    pub kind: ActKind,
    pub inputs: Items<Input>,
    pub cases: Items<Case>,
}

impl Same for Input {
    fn same(&self, other: &Input) -> bool {
        match (self, other) {
            (Input::Arc(p, m), Input::Arc(q, n)) => p == q && m == n,
            (Input::Gate(x, a), Input::Gate(y, b)) => x.same(y) && a.same(b),
            _ => false,
        }
    }
}

impl Same for Output {
    fn same(&self, other: &Output) -> bool {
        match (self, other) {
            (Output::Arc(p, m), Output::Arc(q, n)) => p == q && m == n,
            (Output::Body(a), Output::Body(b)) => a.same(b),
            _ => false,
        }
    }
}

impl Same for Case {
    fn same(&self, other: &Case) -> bool {
        self.weight.same(&other.weight) && self.outputs.same(&other.outputs)
    }
}

impl Same for ActKind {
    fn same(&self, other: &ActKind) -> bool {
        match (self, other) {
            (ActKind::Timed { delay: d, pair: p }, ActKind::Timed { delay: e, pair: q }) => {
                d.same(e) && p.same(q)
            }
            (ActKind::Instant { priority: m }, ActKind::Instant { priority: n }) => m == n,
            _ => false,
        }
    }
}

impl Same for Activity {
    fn same(&self, other: &Activity) -> bool {
        self.kind.same(&other.kind)
            && self.inputs.same(&other.inputs)
            && self.cases.same(&other.cases)
    }
}

//! Atomic models: cells, activities, terms of rewards.

use crate::activity::Activity;
use san_base::{Name, Same};
use san_expr::Expr;
use sqlite_items::Items;

/// The activities of the largest atomic model.
pub const MAX_ATOMIC_ACTS: usize = 256;

/// The terms of a reward in an atomic model.
pub const MAX_TERMS: usize = 16;

/// A term of a reward that counts its value at the end of each tick.
#[derive(Debug, Drop)]
pub struct RateTerm {
    pub reward: u32,
    pub expr: Expr,
}

/// A term of a reward that counts its value at each completion of an activity.
#[derive(Debug, Drop)]
pub struct ImpulseTerm {
    pub reward: u32,
    pub act: u32,
    pub expr: Expr,
}

/// An atomic model: one initial value for each cell, the activities by number, the numbers of the
/// instantaneous ones in the order in which they are tested, its terms of the rewards.
#[derive(Debug, Drop)]
pub struct Atomic {
    pub name: Name,
    pub initial: Items<u32>,
    pub acts: Items<(Name, Activity)>,
    pub instants: Items<u32>,
    pub rates: Items<RateTerm>,
    pub impulses: Items<ImpulseTerm>,
}

impl Same for RateTerm {
    fn same(&self, other: &RateTerm) -> bool {
        self.reward == other.reward && self.expr.same(&other.expr)
    }
}

impl Same for ImpulseTerm {
    fn same(&self, other: &ImpulseTerm) -> bool {
        self.reward == other.reward && self.act == other.act && self.expr.same(&other.expr)
    }
}

impl Same for Atomic {
    fn same(&self, other: &Atomic) -> bool {
        self.name.same(&other.name)
            && self.initial.same(&other.initial)
            && self.acts.same(&other.acts)
            && self.instants.same(&other.instants)
            && self.rates.same(&other.rates)
            && self.impulses.same(&other.impulses)
    }
}

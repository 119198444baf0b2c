//! Expressions, statements and distributions of a network, and their evaluation over a view of a
//! marking.
#![tactic(auto)]

mod below;
mod dist;
mod effect;
mod expr;
mod laws;
mod marking;
mod mention;
mod stmt;
#[cfg(test)]
mod tests;
mod value;
mod view;

pub use below::{dist_below, places_below, stmts_below};
pub use dist::Dist;
pub use effect::{count_of, run_stmts};
pub use expr::Expr;
pub use laws::{evaluations_assign_nothing, mentioned_cells_decide, whole_views_have_one_marking};
pub use marking::Marking;
pub use mention::mentions;
pub use san_base::{Boxed, Items, Op, Trap};
pub use stmt::{Stmt, same_stmts};
pub use value::eval;
pub use view::{Cells, Marked};

//! Building the parts of a model from a syntax without a fault.

pub(crate) mod activity;
pub(crate) mod atomic;
pub(crate) mod cells;
pub(crate) mod composition;
pub(crate) mod element;
pub(crate) mod expression;
pub(crate) mod reward;
pub(crate) mod term;

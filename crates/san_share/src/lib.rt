//! Runs that are shared out among workers, so many for each.
#![tactic(auto)]

mod share;

pub use share::first_of;

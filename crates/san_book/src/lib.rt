//! The book of what is made ahead of a run, and the law that each step keeps it whole.
#![tactic(auto)]

mod examples;
mod law;
mod limits;
mod line;
mod nets;

pub use examples::{
    a_chain_falls_with_its_base, a_late_publication_is_dropped, a_set_place_is_a_version,
    a_stale_read_is_cut,
};
pub use law::{
    a_core_goes_on_until_it_rests, a_journal_goes_on, a_journal_is_bounded,
    a_step_keeps_a_core_whole, counts_are_the_journals, every_run_keeps_the_law,
    rollbacks_are_bounded, the_least_leaf_is_claimed, what_is_committed_is_needed,
};
pub use limits::{
    MAX_COMMIT, MAX_JOURNAL, MAX_STEPS_TO_CLAIM, MAX_STRETCH_EVENTS, MAX_STRETCH_PIECES,
};
pub use line::{a_log_agrees_by_value, a_publication_is_read_place_by_place, lines_are_determined};
pub use nets::{the_book_has_a_subject, what_is_committed_follows_the_run};

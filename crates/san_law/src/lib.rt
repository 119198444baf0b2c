//! Definitions of a run and of its pieces, and the law between them.
#![tactic(auto)]

mod examples;
mod frame;
mod law;
mod leaf;
mod start;

pub use examples::{small_pieces, small_rewards, small_runs, the_law_has_a_subject};
pub use frame::{a_piece_is_its_parts, a_taken_piece_is_framed, a_tally_counts_one_by_one};
pub use law::{
    a_core_is_renewed_in_part, a_fresh_leaf_stays, a_piece_ahead_is_the_needed_one,
    a_piece_keeps_the_standing, a_piece_leaves_less, a_resumed_core_follows, a_run_has_an_ending,
    a_tally_is_small, a_tally_is_the_rewards, an_end_is_the_trajectory, an_opening_is_followed,
    events_are_a_prefix, pieces_are_the_needed_ones, pieces_keep_the_standing,
    the_least_timer_is_first,
};
pub use leaf::{a_steady_leaf_is_quiet, greater_priority_is_first, leaves_keep_to_themselves};
pub use start::{
    a_run_starts_again, an_opening_has_any_rates, earlier_events_change_nothing, pieces_go_on,
};

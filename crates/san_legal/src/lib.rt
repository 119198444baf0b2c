//! The law of free runs: which runs some draws give, judged without the draws.
#![tactic(auto)]

mod delay_examples;
mod delays;
mod draw_examples;
mod ending_examples;
mod examples;
mod free;
mod kept;
mod kept_examples;
mod locality;

pub use delay_examples::{free_draws, given_delays, small_choices, small_delays};
pub use delays::{
    delays_are_those_of_draws, networks_are_free, the_latest_due_time_decides,
    weighted_cases_are_drawn,
};
pub use draw_examples::{a_race_with_draws, agreeing_draws};
pub use ending_examples::small_endings;
pub use examples::a_small_race;
pub use free::free_runs_are_of_some_draws;
pub use kept::{
    a_kept_state_is_one, kept_states_are_those_of_runs, legal_events_are_those_of_runs,
    legal_runs_are_those_of_draws,
};
pub use kept_examples::{a_kept_timer, agreeing_states, kept_rows};
pub use locality::{
    a_completion_looks_at_the_draw_that_it_takes, a_renewal_looks_at_the_draws_that_it_takes,
    a_run_looks_at_the_draws_that_it_takes, a_step_looks_at_next_draws,
};

// What the program stands on. The contract of each function called here is a theorem about the definitions that the
// other contracts speak through; none does anything when it runs.
use causal::theorems::{
    choosing_has_one_outcome, drafting_has_one_answer, union_of_fitting_sets_fits,
    withheld_exactly_when_none_contains_it, worked_facts,
};
use piles::theorems::piles_are_exact;
use poll::theorems::{first_copying_is_the_first, poll_shows_the_last_copy};
use replicas::line_times::pairs_in_order;
use replicas::replicas::Replicas;
use replicas::serve::registers_hold_the_highest;
use shared_log::log::Log;
use shared_log::serve::log_tells_the_puts;
use versions::join::joins_of_stamps_and_rows;

// Of cuts and posts.
pub fn of_cuts() {
    joins_of_stamps_and_rows();
    choosing_has_one_outcome();
    withheld_exactly_when_none_contains_it();
    union_of_fitting_sets_fits();
    drafting_has_one_answer();
    worked_facts();
}

// Of stores.
pub fn of_stores() {
    pairs_in_order();
    registers_hold_the_highest();
    log_tells_the_puts();
    first_copying_is_the_first();
    poll_shows_the_last_copy::<Replicas>();
    poll_shows_the_last_copy::<Log>();
    piles_are_exact();
}

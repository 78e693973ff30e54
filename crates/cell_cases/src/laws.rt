//! The laws, over whatever meets the rules, and at types that do.

use case_rules::Shop;
use index_feed::{drained_is_projection, feeds_harmless, index_rows_project};
use std::test::Fail;
use txn_core::{Rules, cells, driver, indexes, laws};

fn laws_of_histories<R: Rules>() {
    laws::rows_are_shown::<R>();
    laws::one_fate::<R>();
    laws::writes_are_serial::<R>();
    laws::expirations_are_serial::<R>();
    laws::removals_leave_none::<R>();
    laws::timestamp_order::<R>();
    laws::token_once::<R>();
    laws::reads_go_forward::<R>();
    laws::one_point_reads::<R>();
    laws::real_causes::<R>();
    laws::seen_is_enough::<R>();
    laws::rules_one_by_one::<R>();
}

fn laws_of_indexes<R: Rules>() {
    indexes::index_rows_project::<R>();
    indexes::drained_is_projection::<R>();
    indexes::feeds_harmless::<R>();
    indexes::pages_are_shown::<R>();
}

fn laws_of_cells<R: Rules>() {
    cells::own_entries_tell::<R>();
    cells::own_entries_answer::<R>();
    cells::seen_cells_are_enough::<R>();
}

fn laws_of_drivers<R: Rules>() {
    driver::beginning_is_known::<R>();
    driver::steps_are_known::<R>();
    driver::knowledge_stays::<R>();
    driver::course_is_allowed::<R>();
    driver::end_is_known::<R>();
    driver::own_number_is_kept::<R>();
    driver::reasons_are_known::<R>();
}

fn all_laws<R: Rules>() {
    laws_of_histories::<R>();
    laws_of_indexes::<R>();
    laws_of_cells::<R>();
    laws_of_drivers::<R>();
}

#[test]
fn laws_hold_of_the_shop(_rt: HostRuntime) -> Result<(), Fail> {
    all_laws::<Shop>();
    driver::course_ends();
    Ok(())
}

#[test]
fn laws_of_the_feed_hold_at_a_type(_rt: HostRuntime) -> Result<(), Fail> {
    index_rows_project::<u64, u64, u64>();
    drained_is_projection::<u64, u64, u64>();
    feeds_harmless::<u64, u64, u64>();
    Ok(())
}

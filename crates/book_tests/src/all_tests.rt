//! Every test, in the order in which they run. A test that is not listed here does not run.

use crate::checks::Checks;
use crate::shared::{closing, limits, moving, passes, sweeping};
use crate::{books, cells, drawn, ends, oldest, shelves, turns};
use std::alloc::Global;
use std::io;
use std::sync::Wait;
use std::thread::Threads;

/// Finds and cells, and a tree of moments.
fn finds<R: Print + Eprint>(rt: &R, checks: &mut Checks, alloc: Global) -> io::Result<()> {
    let ended = cells::times_to_live(checks, alloc);
    checks.end(rt, "cells::times_to_live", ended)?;
    let ended = cells::no_data(checks, alloc);
    checks.end(rt, "cells::no_data", ended)?;
    let ended = cells::last_moment(checks, alloc);
    checks.end(rt, "cells::last_moment", ended)?;
    let ended = cells::end_of_life(checks, alloc);
    checks.end(rt, "cells::end_of_life", ended)?;
    let ended = cells::owners(checks, alloc);
    checks.end(rt, "cells::owners", ended)?;
    let ended = ends::finds_the_positions_that_have_ended(checks, alloc);
    checks.end(rt, "ends::finds_the_positions_that_have_ended", ended)
}

/// The cache without a history.
fn caches<R: Print + Eprint>(rt: &R, checks: &mut Checks, alloc: Global) -> io::Result<()> {
    let ended = shelves::a_flush_is_undone_and_redone(checks, alloc);
    checks.end(rt, "shelves::a_flush_is_undone_and_redone", ended)?;
    let ended = shelves::a_find_is_cached_in_both_versions(checks, alloc);
    checks.end(rt, "shelves::a_find_is_cached_in_both_versions", ended)?;
    let ended = shelves::full_for_a_new_name_alone(checks, alloc);
    checks.end(rt, "shelves::full_for_a_new_name_alone", ended)?;
    let ended = shelves::equal_neighbours_are_one_cell(checks, alloc);
    checks.end(rt, "shelves::equal_neighbours_are_one_cell", ended)?;
    let ended = shelves::a_permanent_flush_reaches_names_later(checks, alloc);
    checks.end(rt, "shelves::a_permanent_flush_reaches_names_later", ended)?;
    let ended = shelves::a_sweep_in_turns_removes_what_a_sweep_does(checks, alloc);
    checks.end(
        rt,
        "shelves::a_sweep_in_turns_removes_what_a_sweep_does",
        ended,
    )
}

/// The name to forget first.
fn oldest_names<R: Print + Eprint>(rt: &R, checks: &mut Checks, alloc: Global) -> io::Result<()> {
    let ended = oldest::a_name_that_is_alive_without_a_flush(checks, alloc);
    checks.end(rt, "oldest::a_name_that_is_alive_without_a_flush", ended)?;
    let ended = oldest::names_in_the_order_of_their_ends(checks, alloc);
    checks.end(rt, "oldest::names_in_the_order_of_their_ends", ended)?;
    let ended = oldest::names_that_end_in_one_second(checks, alloc);
    checks.end(rt, "oldest::names_that_end_in_one_second", ended)?;
    let ended = oldest::short_and_long_data_of_one_name(checks, alloc);
    checks.end(rt, "oldest::short_and_long_data_of_one_name", ended)?;
    let ended = oldest::names_that_go_one_by_one(checks, alloc);
    checks.end(rt, "oldest::names_that_go_one_by_one", ended)?;
    let ended = oldest::a_name_that_is_flushed_for_good(checks, alloc);
    checks.end(rt, "oldest::a_name_that_is_flushed_for_good", ended)
}

/// A sweep in turns, and drawn calls to two caches.
fn turns_of_sweeps<R: Print + Eprint>(
    rt: &R,
    checks: &mut Checks,
    alloc: Global,
) -> io::Result<()> {
    let ended = turns::a_flush_that_is_dropped_fills_a_turn(checks, alloc);
    checks.end(rt, "turns::a_flush_that_is_dropped_fills_a_turn", ended)?;
    let ended = turns::a_number_that_is_not_kept_leaves_no_name_in_doubt(checks, alloc);
    checks.end(
        rt,
        "turns::a_number_that_is_not_kept_leaves_no_name_in_doubt",
        ended,
    )?;
    let ended = turns::a_book_is_full_between_turns(checks, alloc);
    checks.end(rt, "turns::a_book_is_full_between_turns", ended)?;
    let ended = drawn::flushes_that_go_leave_the_same(checks, alloc);
    checks.end(rt, "drawn::flushes_that_go_leave_the_same", ended)
}

/// The plain book.
fn plain_books<R: Print + Eprint>(rt: &R, checks: &mut Checks, alloc: Global) -> io::Result<()> {
    let ended = books::settings_have_ranges(checks, alloc);
    checks.end(rt, "books::settings_have_ranges", ended)?;
    let ended = books::redo_puts_back(checks, alloc);
    checks.end(rt, "books::redo_puts_back", ended)?;
    let ended = books::nothing_to_redo(checks, alloc);
    checks.end(rt, "books::nothing_to_redo", ended)?;
    let ended = books::looks_take_every_moment(checks, alloc);
    checks.end(rt, "books::looks_take_every_moment", ended)?;
    let ended = books::stored_counts(checks, alloc);
    checks.end(rt, "books::stored_counts", ended)?;
    let ended = books::run_stops_at_a_fault(checks, alloc);
    checks.end(rt, "books::run_stops_at_a_fault", ended)
}

/// Shared books: how they are closed, and what they are made with.
fn shared_books<R: Print + Eprint + Threads + Wait + Sync>(
    rt: &R,
    checks: &mut Checks,
    alloc: Global,
) -> io::Result<()> {
    let ended = closing::receipts_come_in_any_order(rt, checks, alloc);
    checks.end(rt, "shared::closing::receipts_come_in_any_order", ended)?;
    let ended = closing::some_are_missing(rt, checks, alloc);
    checks.end(rt, "shared::closing::some_are_missing", ended)?;
    let ended = closing::one_is_not_in_the_record(rt, checks, alloc);
    checks.end(rt, "shared::closing::one_is_not_in_the_record", ended)?;
    let ended = limits::settings_have_ranges(rt, checks, alloc);
    checks.end(rt, "shared::limits::settings_have_ranges", ended)?;
    let ended = limits::one_part_is_not_split(rt, checks, alloc);
    checks.end(rt, "shared::limits::one_part_is_not_split", ended)
}

/// Shared books: windows that move on, sweeps, and passes.
fn windows_and_passes<R: Print + Eprint + Threads + Wait + Sync>(
    rt: &R,
    checks: &mut Checks,
    alloc: Global,
) -> io::Result<()> {
    let ended = moving::a_window_moves_on(rt, checks, alloc);
    checks.end(rt, "shared::moving::a_window_moves_on", ended)?;
    let ended = sweeping::a_worker_sweeps_until_there_is_room(rt, checks, alloc);
    checks.end(
        rt,
        "shared::sweeping::a_worker_sweeps_until_there_is_room",
        ended,
    )?;
    let ended = sweeping::an_operator_sweeps_everything(rt, checks, alloc);
    checks.end(rt, "shared::sweeping::an_operator_sweeps_everything", ended)?;
    let ended = passes::a_refused_call_is_not_recorded(rt, checks, alloc);
    checks.end(rt, "shared::passes::a_refused_call_is_not_recorded", ended)?;
    let ended = passes::a_joined_pass_has_seen_what_either_had(rt, checks, alloc);
    checks.end(
        rt,
        "shared::passes::a_joined_pass_has_seen_what_either_had",
        ended,
    )
}

/// Runs all tests.
pub fn run_tests<R: Print + Eprint + Threads + Wait + Sync>(
    rt: &R,
    alloc: Global,
) -> anyhow::Result<()> {
    let mut checks = Checks::new();
    finds(rt, &mut checks, alloc)?;
    caches(rt, &mut checks, alloc)?;
    oldest_names(rt, &mut checks, alloc)?;
    turns_of_sweeps(rt, &mut checks, alloc)?;
    plain_books(rt, &mut checks, alloc)?;
    shared_books(rt, &mut checks, alloc)?;
    windows_and_passes(rt, &mut checks, alloc)?;
    checks.conclude(rt)
}

//! Tests of sessions at a lock of a plain list, and of searches over a row of numbers.
//!
//! `sim_lock` and `sim_claims` are the two libraries in which threads meet. Their contracts hold
//! for every order in which threads run. They cannot say that a call returns, that it succeeds if
//! memory is ample, or that two threads work at once.
//!
//! - `lock`: two sessions make calls in two threads, and the history at the end has every receipt.
//! - `claims`: each piece is scanned once, by 1 to 16 workers. One worker scans none past its
//!   finding. Two workers wait for each other inside a piece: they meet only if both run.
//!
//! The value under the lock is a list of notes, and the search is over a row of numbers. So a
//! failure here is one of the lock or of the claims, and not of a book or a tape.
//!
//! What each test catches:
//! - `lock::two_sessions`: a seat that never takes the lock, or gives up; a receipt that the
//!   history does not have.
//! - `lock::a_frozen_place_is_that_of_its_receipt`: a freeze that returns nothing.
//! - `lock::a_full_list_takes_no_command`: a lock that returns `Full` early, or waits there.
//! - `claims::any_number_of_workers`: a search that wants memory for no reason; a piece that is
//!   entered or left twice, or never.
//! - `claims::each_piece_is_scanned_once`: a piece that two workers scan.
//! - `claims::a_worker_scans_no_piece_past_its_finding`: a worker that scans on.
//! - `claims::a_scan_that_wants_memory_fails_the_search`: a want of memory that others hide.
//! - `claims::two_workers_are_inside_the_gate`, `claims::two_workers_scan_at_once`: a search that
//!   begins no second worker, or whose workers wait for each other.
mod claims;
mod lock;

//! Books of echo that sessions share, mostly each session in a thread of its own.
//!
//! The contract of `Shared` says that every receipt is an entry and that the history is one that a
//! single user could have made. It cannot say that a call returns. Two tests run eight sessions in
//! eight threads and check the history at the end.
//!
//! - A branch for each session: the answers to a session do not depend on the others.
//! - One branch for all: no entry is lost, doubled or out of its session's order.
//! - A freeze by a single session, and a full history of two, where each call still returns.
//!
//! Nobody says which session comes first. So a history is compared with the receipts of its
//! sessions, and an answer with a fixed value only where each session has a branch of its own.
//!
//! What each test catches:
//! - `a_branch_for_each_session`: a call that is not taken, or is answered by a world that another
//!   session moved.
//! - `one_branch_for_all_sessions`: a receipt that is no entry, or an entry that is lost, doubled
//!   or out of its session's order, where all sessions move one world.
//! - `a_freeze_gives_a_run`: a freeze that returns nothing.
//! - `a_full_history`: a call or a freeze that waits, or returns something else, when the history
//!   is full; a history that is full early.
mod crowds;

//! Searches and sweeps over runs of echo, by one worker and by several.
//!
//! It is proved that a search returns the first failing place, and a sweep the least failing seed,
//! for every number of workers. Not proved is that they return at all, that more than one worker
//! runs, and that they do not give up for want of memory. These tests check that.
//!
//! - `rows`: worked searches and sweeps, one of them over 3,000 seeds, and requests that are
//!   refused, each by 1, 2 and 16 workers.
//! - `long`: a place near the end of a run of 20,000 events in 313 pieces.
//! - `overlap`, `meeting`, `comers`: two workers that wait for each other inside a piece. If a
//!   search ran them one after the other, they would never meet.
//!
//! Echo is the node, since its state is a number and its runs can be worked out by hand.
//!
//! What each test catches:
//! - `rows::searches`, `rows::sweeps`: a search, or a sweep of up to 3,000 seeds, that wants memory
//!   for no reason; a request that is refused for want of memory in place of its reason; a piece
//!   that is entered or left twice, or never, or although the search is refused.
//! - `long::a_late_place_of_a_long_run`: a search that gives up past the size of the small runs,
//!   with one worker or with several.
//! - `overlap::two_workers_search_at_once`, `overlap::two_workers_sweep_at_once`: a search or a
//!   sweep that begins no second worker, or whose workers work one after the other.
mod comers;
mod long;
mod meeting;
mod overlap;
mod rows;

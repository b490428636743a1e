// Layer 2, the routes in force, in one lent slice of words. From word 0 on stands where each owner's stops start, and where all end; then,
// from the places named here:
//   STOPS      the stops, owner after owner, then zeros; a stop is its job twice, and 1 more if it is joined to the one before
//   INVALID    how many entries of each owner's route were no jobs
//   VIOLATED   the violations of each owner's route
//   ASSIGNED   how often each job is in force
//   WAITERS    how many owners wait
//   WAITING    who waits, in the order they began to, then zeros
// Only this crate knows these places; the others are handed rows and answers. Any contents are safe.
#![tactic(auto)]

pub mod ask;
mod counts;
mod difference;
pub mod exchange;
pub mod route;
pub mod rows;
pub mod snap;
mod splices;
pub mod wait;

use rules::Plan;

const STOPS: usize = Plan::OWNERS + 1;

const INVALID: usize = STOPS + Plan::ENTRIES;

const VIOLATED: usize = INVALID + Plan::OWNERS;

const ASSIGNED: usize = VIOLATED + Plan::OWNERS;

const WAITERS: usize = ASSIGNED + Plan::JOBS;

const WAITING: usize = WAITERS + 1;

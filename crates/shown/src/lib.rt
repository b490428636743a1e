// What is shown of a graph: the lowest line-up, or the lowest of the shortest cycles through the lowest job on one. Any contents are safe.
#![tactic(auto)]

pub mod cycles;
pub mod distances;
pub mod lowests;

// Layer 4, all of it: the four moves with both checks, and the critical blocks, which stand in a crate beneath. The store is only read.
#![tactic(auto)]

pub use blocks::blocks::blocks;

pub mod moved;
mod places;
mod reroute;
mod stops;

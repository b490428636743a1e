// Layer 3, all of it: load, reset, retract, put, score, verdict, starts. The calls that read the store or mark it stand in a crate beneath.
#![tactic(auto)]

pub use stores::{reported, reset, retract, score, store};

pub mod load;
pub mod put;
pub mod verdict;

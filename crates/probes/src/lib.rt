// Layer 4: which edges are on after a move, seen through a view of the live lists, and both checks over them. Nothing is copied.
#![tactic(auto)]

mod chain;
pub mod checks;
mod fixed;
mod full;
mod heads;
mod on;
mod quick;
mod sets;
mod view;

// Every public call for C. A slice is an address and a number of places, an array of fixed length an address alone; a call answers 0, or the
// refusal's number, and writes the numbers of its reply into lent arrays. `include/notekarip.h` says it in C.
#![tactic(auto)]

pub mod calls;
pub mod critical;
pub mod moving;
mod numbers;

// Critical blocks: latest starts, critical jobs, runs of critical arcs, and the blocks of a list of owners. Public are the call
// `blocks::blocks`, and `search` with `next` beside it, which find the same blocks one at a time. Any contents of the store are safe.
#![tactic(auto)]

pub mod blocks;
mod critical;
mod owners;
mod runs;

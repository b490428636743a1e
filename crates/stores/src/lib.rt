// Layer 3, the store: what its five slices hold, and the calls that read it or only mark it: score, starts, retract, reset.
//   base   u32   0 mark, 1 jobs, 2 owners, 3 fixed pairs, 4 invalid fixed pairs; 5.. from[3072]; 3077.. to[3072]; 6149.. expected[512]
//   spans  u64   durations[512]
//   edges  u16   layer 1
//   routes u16   layer 2
//   times  u64   0 cyclic, 1 makespan; 2.. starts[512]
#![tactic(auto)]

pub mod base;
pub mod header;
pub mod reported;
pub mod reset;
pub mod retract;
pub mod score;
pub mod store;

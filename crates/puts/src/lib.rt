// A put: waiting owners give up their routes, then the owner gets the new one, and the edges follow.
#![tactic(auto)]

pub mod put;

// The times of a plan, in one lent slice: cyclic or not, the makespan, the starts. Only this crate knows their places.
#![tactic(auto)]

pub mod settle;

ghost use Rattle.std.specs.Prelude.{◌≡◌, ◌≤◌, length};
ghost use Rattle.rules.specs.Sizes.{times_length};
ghost use Rattle.times.specs.Words.{cyclic_in, makespan_in, starts_in};

use rules::Plan;

const CYCLIC: usize = 0;

const MAKESPAN: usize = 1;

const STARTS: usize = 2;

// Whether the plan is cyclic.
pub fn is_cyclic(times: &[u64]) -> bool
    requires { times_length ≤ length times.now }
    ensures { result ≡ cyclic_in times.now }
{
    times[CYCLIC] != 0
}

pub fn makespan(times: &[u64]) -> u64
    requires { times_length ≤ length times.now }
    ensures { result ≡ makespan_in times.now }
{
    times[MAKESPAN]
}

// The start of each job.
pub fn starts(times: &[u64]) -> &[u64]
    requires { times_length ≤ length times.now }
    ensures { result.now ≡ starts_in times.now }
{
    &times[STARTS..Plan::TIMES]
}

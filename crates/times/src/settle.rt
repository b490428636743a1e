// After a load or an exchange of edges: the verdict and the starts, as the report says.
#![tactic(auto, using(crate::proofs::Settling::settling))]

ghost use Rattle.std.specs.Prelude.{◌≡◌, ◌≤◌, ◌∷◌, ◌++◌, length, replicate};
ghost use Rattle.rules.specs.Sizes.{edges_length, most_entries, most_jobs, spans_length, times_length};
ghost use Rattle.times.specs.Words.{starts_in};
ghost use Rattle.times.specs.Settles.{latest_of, Renews, Mends, Refreshes};

use crate::{CYCLIC, MAKESPAN, STARTS, is_cyclic};
use rules::{Plan, Report};
use starts::backs::judge;
use starts::full;
use starts::walks::walk;

// The greatest finish.
fn latest(spans: &[u64], starts: &[u64], n: usize) -> u64
    requires { (n ≤ length spans.now) × (n ≤ length starts.now) }
    ensures { result ≡ latest_of spans.now starts.now n }
{
    let mut top: u64 = 0;
    for i in 0..n {
        top = top.max(starts[i].wrapping_add(spans[i]));
    }
    top
}

// The plan is cyclic: no times outlive the routes they came from.
fn stop(times: &mut [u64])
    requires { length times.old ≡ times_length }
    ensures { times.new ≡ 1 ∷ 0 ∷ replicate most_jobs 0 }
{
    times.fill(0);
    times[CYCLIC] = 1;
}

// The plan is not, and its starts are there.
fn go(spans: &[u64], times: &mut [u64], n: usize)
    requires { (length spans.now ≡ spans_length) × (length times.old ≡ times_length) × (n ≤ most_jobs) }
    ensures { times.new
        ≡ 0 ∷ latest_of spans.now (starts_in times.old) n ∷ starts_in times.old }
{
    let top = latest(spans, &times[STARTS..Plan::TIMES], n);
    times[CYCLIC] = 0;
    times[MAKESPAN] = top;
}

// The verdict and every start anew.
pub fn anew(edges: &[u16], spans: &[u64], times: &mut [u64], n: usize) -> Report
    requires { (length edges.now ≡ edges_length) × (length spans.now ≡ spans_length) × (length times.old ≡ times_length) × (n ≤ most_jobs) }
    ensures { Renews edges.now spans.now n result times.new }
{
    let starts = &mut times[STARTS..Plan::TIMES];
    starts.fill(0);
    if full(edges, spans, starts, n) {
        go(spans, times, n);
        return Report::Full;
    }
    stop(times);
    Report::Full
}

// From a plan that was not cyclic to one that is not.
fn mend(
    edges: &[u16],
    spans: &[u64],
    times: &mut [u64],
    came: &[u16],
    went: &[u16],
    gone: &[u16],
    n: usize,
) -> Report
    requires { (length edges.now ≡ edges_length) × (length spans.now ≡ spans_length) × (length times.old ≡ times_length) × (n ≤ most_jobs) }
    ensures { Mends edges.now spans.now times.old (came.now ++ (went.now ++ gone.now)) n result times.new }
{
    let visits = walk(
        edges,
        spans,
        &mut times[STARTS..Plan::TIMES],
        came,
        went,
        gone,
        n,
    );
    go(spans, times, n);
    Report::Incremental(visits as u32)
}

// The times after edges came and went, the heads of which the lists hold.
pub fn refresh(
    edges: &[u16],
    spans: &[u64],
    times: &mut [u64],
    came: &[u16],
    went: &[u16],
    gone: &[u16],
    n: usize,
) -> Report
    requires { (length edges.now ≡ edges_length) × (length spans.now ≡ spans_length) × (length times.old ≡ times_length) × (n ≤ most_jobs)
        × (length came.now ≤ most_entries) × (length went.now ≤ most_entries) × (length gone.now ≤ most_entries) }
    ensures { Refreshes edges.now spans.now times.old
        (came.now ++ (went.now ++ gone.now)) came.now n result times.new }
{
    if came.len() + went.len() + gone.len() == 0 {
        return Report::Skipped;
    }
    if is_cyclic(times) {
        return anew(edges, spans, times, n);
    }
    if judge(edges, crate::starts(times), came, n) {
        return mend(edges, spans, times, came, went, gone, n);
    }
    stop(times);
    Report::CycleFound
}

// Starts over the edges' rows: a line-up, all starts anew along it, the walk that mends them, and the verdict by them. Any contents are safe.
#![tactic(auto, using(crate::proofs::Pulled::pulling))]

pub mod backs;
pub mod lineup;
mod queues;
pub mod walks;

ghost use Rattle.std.specs.Prelude.{◌≡◌, ◌≤◌, length};
ghost use Rattle.rules.specs.Sizes.{edges_length, most_jobs};
ghost use Rattle.graphs.specs.Graph.{zeros};
ghost use Rattle.starts.specs.Pulls.{reach_of, Pulls, Settles, Full};

use crate::lineup::line_up;
use edges::lists::predecessors;
use rules::Plan;

// `best`, or the end of job u if that is later. A number that is no job is passed over.
fn reach(spans: &[u64], starts: &[u64], u: u16, n: usize, best: u64) -> u64
    requires { (n ≤ length spans.now) × (n ≤ length starts.now) }
    ensures { result ≡ reach_of spans.now starts.now n best u }
{
    let k = usize::from(u);
    if n <= k {
        return best;
    }
    best.max(starts[k].wrapping_add(spans[k]))
}

// The earliest start of job v.
fn earliest(e: &[u16], spans: &[u64], starts: &[u64], v: usize, n: usize) -> u64
    requires { (length e.now ≡ edges_length) × (n ≤ length spans.now) × (n ≤ length starts.now) × (n ≤ most_jobs) }
    ensures { Pulls e.now spans.now zeros starts.now v n result }
{
    let mut best: u64 = 0;
    for &u in predecessors(e, v) {
        best = reach(spans, starts, u, n, best);
    }
    best
}

// Pulls the start of each job along a line-up.
fn settle(e: &[u16], spans: &[u64], starts: &mut [u64], order: &[u16], n: usize)
    requires { (length e.now ≡ edges_length) × (n ≤ length spans.now) × (n ≤ length starts.old) × (n ≤ most_jobs)
        × (n ≤ length order.now) }
    ensures { Settles e.now spans.now zeros
        starts.old order.now n starts.new }
{
    for &v in &order[..n] {
        let v = usize::from(v);
        if n <= v {
            return;
        }
        starts[v] = earliest(e, spans, starts, v, n);
    }
}

// Whether there is a line-up, and with one every start.
pub fn full(e: &[u16], spans: &[u64], starts: &mut [u64], n: usize) -> bool
    requires { (length e.now ≡ edges_length) × (n ≤ length spans.now) × (n ≤ length starts.old) × (n ≤ most_jobs) }
    ensures { Full e.now spans.now zeros starts.old n result starts.new }
{
    let mut order = [0u16; Plan::JOBS];
    if line_up(e, n, &mut order) {
        settle(e, spans, starts, &order, n);
        return true;
    }
    false
}

// A line-up by degrees, first in first out.
#![tactic(auto, using(crate::proofs::Lining::lining))]

ghost use Rattle.std.specs.Prelude.{◌≡◌, ◌<◌, ◌≤◌, [], ◌∷◌, length};
ghost use Rattle.rules.specs.Sizes.{edges_length, most_jobs};
ghost use Rattle.starts.specs.Lines.{Tells, Enters, Lined, Lines};

use edges::lists::{predecessors, successors};
use rules::Plan;

// Order, degrees and count are three parameters and no struct: they are tables of the caller, who goes on with one or
// the other.

// One predecessor of v less; at the last v joins the order.
pub fn relax(order: &mut [u16], deg: &mut [u16], v: u16, tail: usize) -> usize
    requires { (length order.old ≡ most_jobs) × (length deg.old ≡ most_jobs) × (tail ≤ most_jobs) }
    ensures { Tells (v ∷ []) tail order.old deg.old result order.new deg.new }
{
    let k = usize::from(v);
    if Plan::JOBS <= k {
        return tail;
    }
    if Plan::JOBS <= tail {
        return tail;
    }
    let d = deg[k];
    if d == 0 {
        return tail;
    }
    deg[k] = d - 1;
    order[tail] = v;
    if d == 1 {
        return tail + 1;
    }
    tail
}

// The same for each job of a row.
fn tell(row: &[u16], order: &mut [u16], deg: &mut [u16], start: usize) -> usize
    requires { (length order.old ≡ most_jobs) × (length deg.old ≡ most_jobs) × (start ≤ most_jobs) }
    ensures { Tells row.now start order.old deg.old result order.new deg.new }
{
    let mut tail = start;
    for &v in row {
        tail = relax(order, deg, v, tail);
    }
    tail
}

// Job v has k predecessors; without any it joins the order.
pub fn enter(order: &mut [u16], deg: &mut [u16], v: usize, k: usize, tail: usize) -> usize
    requires { (length order.old ≡ most_jobs) × (length deg.old ≡ most_jobs) × (v < most_jobs) × (tail ≤ v) × (k ≤ 65535) }
    ensures { Enters v k tail order.old deg.old result order.new deg.new }
{
    deg[v] = k as u16;
    if k == 0 {
        order[tail] = v as u16;
        return tail + 1;
    }
    tail
}

// The degree of each job below n; those without predecessors start the order.
pub fn degrees(e: &[u16], order: &mut [u16], deg: &mut [u16], n: usize) -> usize
    requires { (length e.now ≡ edges_length) × (length order.old ≡ most_jobs) × (length deg.old ≡ most_jobs) × (n ≤ most_jobs) }
    ensures { Lined e.now n n 0 result order.new deg.new }
{
    let mut tail: usize = 0;
    for v in 0..n {
        let row = predecessors(e, v);
        tail = enter(order, deg, v, row.len(), tail);
    }
    tail
}

// Whether the n jobs have a line-up, and one.
pub fn line_up(e: &[u16], n: usize, order: &mut [u16]) -> bool
    requires { (length e.now ≡ edges_length) × (length order.old ≡ most_jobs) × (n ≤ most_jobs) }
    ensures { Lines e.now n result order.new }
{
    let mut deg = [0u16; Plan::JOBS];
    let mut tail = degrees(e, order, &mut deg, n);
    let mut head = 0;
    // A `while`: the order grows while it is passed, so no range or row stands still to go over.
    while head < tail {
        let u = usize::from(order[head]);
        tail = tell(successors(e, u), order, &mut deg, tail);
        head += 1;
    }
    tail == n
}

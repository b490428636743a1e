// Distances back to a job: wave after wave, first in first out, over the predecessors.
#![tactic(auto, using(crate::proofs::Distanced::distancing))]

ghost use Rattle.std.specs.Prelude.{◌≡◌, ◌<◌, ◌≤◌, [], ◌∷◌, length};
ghost use Rattle.rules.specs.Sizes.{most_jobs, edges_length};
ghost use Rattle.shown.specs.Distances.{Meets, Measures};

use edges::lists::predecessors;
use rules::Plan;

// Queue, distances and count are three parameters and no struct: the distances are the caller's slice, read afterwards, and the queue ends with
// the call.

// Job w, if it is not met yet, is at distance d and joins the queue. A number that is no job is passed over.
pub fn meet(queue: &mut [u16], dist: &mut [u16], w: u16, d: u16, n: usize, tail: usize) -> usize
    requires { (length queue.old ≡ most_jobs) × (length dist.old ≡ most_jobs) × (n ≤ most_jobs) × (tail ≤ most_jobs) }
    ensures { Meets (w ∷ []) d n tail queue.old dist.old result queue.new dist.new }
{
    let k = usize::from(w);
    if n <= k {
        return tail;
    }
    if 0 < dist[k] {
        return tail;
    }
    if Plan::JOBS <= tail {
        return tail;
    }
    dist[k] = d;
    queue[tail] = w;
    tail + 1
}

// The same for each job of a row.
fn meets(row: &[u16], queue: &mut [u16], dist: &mut [u16], d: u16, n: usize, start: usize) -> usize
    requires { (length queue.old ≡ most_jobs) × (length dist.old ≡ most_jobs) × (n ≤ most_jobs) × (start ≤ most_jobs) }
    ensures { Meets row.now d n start queue.old dist.old result queue.new dist.new }
{
    let mut tail = start;
    for &w in row {
        tail = meet(queue, dist, w, d, n, tail);
    }
    tail
}

// One more than the fewest edges from each job to v, 0 where no way leads there.
pub(crate) fn measure(e: &[u16], v: usize, n: usize, dist: &mut [u16])
    requires { (length e.now ≡ edges_length) × (length dist.old ≡ most_jobs) × (n ≤ most_jobs) × (v < n) }
    ensures { Measures e.now v n dist.old dist.new }
{
    let mut queue = [0u16; Plan::JOBS];
    queue[0] = v as u16;
    dist[v] = 1;
    let mut tail = 1;
    let mut head = 0;
    // A `while`: the queue grows while it is passed, so no range or row stands still to go over.
    while head < tail {
        let u = usize::from(queue[head]);
        if n <= u {
            return;
        }
        let d = dist[u].wrapping_add(1);
        tail = meets(predecessors(e, u), &mut queue, dist, d, n, tail);
        head += 1;
    }
}

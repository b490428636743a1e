// The quick check: from the head of an edge that comes on, a way back to its tail over what is on.
#![tactic(auto, using(crate::proofs::Backways::trying))]

ghost use Rattle.std.specs.Prelude.{◌≡◌, ◌<◌, ◌≤◌, true, length};
ghost use Rattle.rules.specs.Lists.{all_below};
ghost use Rattle.rules.specs.Sizes.{most_jobs};
ghost use Rattle.shown.specs.Distances.{Meets};
ghost use Rattle.probes.specs.Aheads.{Ons, Walks, heads_left};
ghost use Rattle.probes.specs.Quicks.{Closes, Turns, Ways};

use crate::heads::{Heads, heads_from};
use crate::on::On;
use rules::Plan;
use shown::distances::meet;

// Each of the heads, if it is not met yet, is at distance d and joins the queue.
#[tactic(auto, using(crate::proofs::Backways::wading))]
fn meets(heads: Heads, queue: &mut [u16], dist: &mut [u16], d: u16, n: usize, start: usize) -> usize
    requires { Walks heads × (length queue.old ≡ most_jobs) × (length dist.old ≡ most_jobs) × (n ≤ most_jobs) × (start ≤ most_jobs) }
    ensures { Meets (heads_left heads.entry) d n start queue.old dist.old result queue.new dist.new }
{
    let mut tail = start;
    for v in heads {
        tail = meet(queue, dist, v, d, n, tail);
    }
    tail
}

// Whether a way leads from v to u.
#[tactic(auto, using(crate::proofs::Backways::spreading))]
fn leads(on: On, v: u16, u: u16, n: usize) -> bool
    requires { Ons on × (n ≤ most_jobs) × (v < n) × (u < n) }
    ensures { Ways on.entry.live.now on.entry.off.now on.entry.plus.now v u n result }
{
    let mut queue = [0u16; Plan::JOBS];
    let mut dist = [0u16; Plan::JOBS];
    queue[0] = v;
    dist[usize::from(v)] = 1;
    let mut tail = 1;
    let mut head = 0;
    // A `while`: the queue grows while it is passed, so no range or row stands still to go over.
    while head < tail {
        let x = queue[head];
        let k = usize::from(x);
        if n <= k {
            return false;
        }
        let d = dist[k].wrapping_add(1);
        tail = meets(heads_from(on, x), &mut queue, &mut dist, d, n, tail);
        head += 1;
    }
    0 < dist[usize::from(u)]
}

// Whether the edge from u to v comes on, and its head leads back to its tail.
fn closes(on: On, u: u16, v: u16, n: usize) -> bool
    requires { Ons on × (n ≤ most_jobs) × (u < n) × (v < n) }
    ensures { Closes on.entry.live.now on.entry.off.now on.entry.plus.now u v n result }
{
    on.plus.holds(u, v) && leads(on, v, u, n)
}

// Whether some cycle of what is on uses an edge that comes on, of those between neighbours.
pub fn turns(on: On, jobs: &[u16], n: usize) -> bool
    requires { Ons on × (n ≤ most_jobs) × (all_below n jobs.now ≡ true) }
    ensures { Turns on.entry.live.now on.entry.off.now on.entry.plus.now jobs.now n result }
{
    for i in 1..jobs.len() {
        if closes(on, jobs[i - 1], jobs[i], n) {
            return true;
        }
    }
    false
}

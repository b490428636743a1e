// The full check: a line-up by degrees over what is on.
#![tactic(auto, using(crate::proofs::Lineups::lining_up))]

ghost use Rattle.std.specs.Prelude.{◌≡◌, ◌≤◌, [], ◌∷◌, length};
ghost use Rattle.rules.specs.Sizes.{most_jobs};
ghost use Rattle.starts.specs.Lines.{Tells};
ghost use Rattle.probes.specs.Aheads.{Ons, Walks, heads_left};
ghost use Rattle.probes.specs.Fulls.{Begins, Bumps, Lines, Tallied};

use crate::heads::{Heads, heads_from};
use crate::on::On;
use rules::Plan;
use starts::lineup::{enter, relax};

// One more edge leads to v. A number that is no job is passed over.
#[tactic(auto, using(crate::proofs::Tallying::bumping))]
fn bump(deg: &mut [u16], v: u16)
    requires { length deg.old ≡ most_jobs }
    ensures { Bumps (v ∷ []) deg.old deg.new }
{
    let k = usize::from(v);
    if Plan::JOBS <= k {
        return;
    }
    deg[k] = deg[k].wrapping_add(1);
}

// The same for each job to which an edge leads.
#[tactic(auto, using(crate::proofs::Tallying::bumping))]
fn bumps(heads: Heads, deg: &mut [u16])
    requires { Walks heads × (length deg.old ≡ most_jobs) }
    ensures { Bumps (heads_left heads.entry) deg.old deg.new }
{
    for v in heads {
        bump(deg, v);
    }
}

// How many edges that are on lead to each job.
#[tactic(auto, using(crate::proofs::Tallying::tallying))]
fn tally(on: On, deg: &mut [u16], n: usize)
    requires { Ons on × (length deg.old ≡ most_jobs) × (n ≤ most_jobs) }
    ensures { Tallied on.entry.live.now on.entry.off.now on.entry.plus.now n n deg.old deg.new }
{
    for u in 0..n {
        bumps(heads_from(on, u as u16), deg);
    }
}

// Those to which none leads start the order.
#[tactic(auto, using(crate::proofs::Lineups::beginning))]
fn begin(count: &[u16], order: &mut [u16], deg: &mut [u16], n: usize) -> usize
    requires { (length count.now ≡ most_jobs) × (length order.old ≡ most_jobs) × (length deg.old ≡ most_jobs) × (n ≤ most_jobs) }
    ensures { Begins count.now n n result order.new deg.new }
{
    let mut tail = 0;
    for v in 0..n {
        let k = usize::from(count[v]);
        if Plan::JOBS < k {
            return tail;
        }
        tail = enter(order, deg, v, k, tail);
    }
    tail
}

// The heads have one predecessor less to wait for.
#[tactic(auto, using(crate::proofs::Lineups::telling))]
fn tells(heads: Heads, order: &mut [u16], deg: &mut [u16], start: usize) -> usize
    requires { Walks heads × (length order.old ≡ most_jobs) × (length deg.old ≡ most_jobs) × (start ≤ most_jobs) }
    ensures { Tells (heads_left heads.entry) start order.old deg.old result order.new deg.new }
{
    let mut tail = start;
    for v in heads {
        tail = relax(order, deg, v, tail);
    }
    tail
}

// Whether what is on has a line-up.
pub fn lines_up(on: On, n: usize) -> bool
    requires { Ons on × (n ≤ most_jobs) }
    ensures { Lines on.entry.live.now on.entry.off.now on.entry.plus.now n result }
{
    let mut count = [0u16; Plan::JOBS];
    let mut order = [0u16; Plan::JOBS];
    let mut deg = [0u16; Plan::JOBS];
    tally(on, &mut count, n);
    let mut tail = begin(&count, &mut order, &mut deg, n);
    let mut head = 0;
    // A `while`: the order grows while it is passed, so no range or row stands still to go over.
    while head < tail {
        let u = order[head];
        if n <= usize::from(u) {
            return false;
        }
        tail = tells(heads_from(on, u), &mut order, &mut deg, tail);
        head += 1;
    }
    tail == n
}

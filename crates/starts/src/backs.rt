// Whether edges that appeared close a cycle, by the starts before them: a search from the head of each such edge, over jobs that start no
// later than a predecessor of that head.
#![tactic(auto, using(crate::proofs::Backed::backing))]

ghost use Rattle.std.specs.Prelude.{◌≡◌, ℕ, ◌<◌, ◌≤◌, List, [], ◌∷◌, length};
ghost use Rattle.rules.specs.Lists.{keep};
ghost use Rattle.rules.specs.Sizes.{edges_length, most_jobs};
ghost use Rattle.starts.specs.Lines.{Lines};
ghost use Rattle.starts.specs.Queues.{Gains};
ghost use Rattle.starts.specs.Backs.{soon, Searches, Lates, Looks, Judges};

use crate::lineup::line_up;
use crate::queues::Queue;
use edges::lists::{predecessors, successors};
use rules::Plan;

// So many heads are searched from, and so many jobs passed; beyond that a line-up is as quick.
const HEADS: usize = 32;

const STEPS: usize = 256;

// No way back, and so many jobs may still be passed; a way back; too many jobs passed to go on.
#[derive(Clone, Copy)]
enum Turned {
    Free(usize),
    Back,
    Tired,
}

// Job v joins the queue, unless it starts later than `top` or waits already.
fn meet(queue: &mut Queue, starts: &[u64], v: u16, top: u64)
    requires { queue.old.jobs ≤ length starts.now }
    ensures { Gains (keep (soon starts.now top) (v ∷ [])) queue.old queue.new }
{
    let k = usize::from(v);
    if queue.jobs <= k {
        return;
    }
    if top < starts[k] {
        return;
    }
    queue.join(v);
}

// The same for each job of a row.
fn meets(row: &[u16], queue: &mut Queue, starts: &[u64], top: u64)
    requires { queue.old.jobs ≤ length starts.now }
    ensures { Gains (keep (soon starts.now top) row.now) queue.old queue.new }
{
    for &v in row {
        meet(queue, starts, v, top);
    }
}

// From b on, over jobs that start no later than `top`; at most `left` of them are passed.
fn search(e: &[u16], starts: &[u64], b: usize, top: u64, n: usize, left: usize) -> Turned
    requires { (length e.now ≡ edges_length) × (n ≤ length starts.now) × (n ≤ most_jobs) × (b < n) }
    ensures { Searches e.now starts.now b top n result }
{
    let mut queue = Queue::new(n);
    meets(successors(e, b), &mut queue, starts, top);
    let mut head = 0;
    // A `while`: the queue grows while it is passed, so no range or row stands still to go over.
    while head < queue.len {
        if queue.mark[b] == 1 {
            return Turned::Back;
        }
        if left <= head {
            return Turned::Tired;
        }
        let u = usize::from(queue.ring[head]);
        meets(successors(e, u), &mut queue, starts, top);
        head += 1;
    }
    Turned::Free(left - head)
}

// `top`, or the start of job v if that is later. A number that is no job is passed over.
fn later(starts: &[u64], v: u16, n: usize, top: u64) -> u64
    requires { n ≤ length starts.now }
    ensures { Lates (v ∷ []) starts.now n top result }
{
    let k = usize::from(v);
    if n <= k {
        return top;
    }
    top.max(starts[k])
}

// The latest start of the jobs of a row.
fn latest(row: &[u16], starts: &[u64], n: usize) -> u64
    requires { n ≤ length starts.now }
    ensures { Lates row.now starts.now n 0 result }
{
    let mut top: u64 = 0;
    for &v in row {
        top = later(starts, v, n, top);
    }
    top
}

// A way from b back to b, where one of its predecessors starts no sooner than it.
fn look(e: &[u16], starts: &[u64], b: u16, n: usize, left: usize) -> Turned
    requires { (length e.now ≡ edges_length) × (n ≤ length starts.now) × (n ≤ most_jobs) }
    ensures { Looks e.now starts.now b n result }
{
    let k = usize::from(b);
    if n <= k {
        return Turned::Free(left);
    }
    let top = latest(predecessors(e, k), starts, n);
    if top < starts[k] {
        return Turned::Free(left);
    }
    search(e, starts, k, top, n, left)
}

// Whether the n jobs have a line-up.
fn has_line_up(e: &[u16], n: usize) -> bool
    requires { (length e.now ≡ edges_length) × (n ≤ most_jobs) }
    ensures { (o : List ℕ) × Lines e.now n result o }
{
    let mut order = [0u16; Plan::JOBS];
    line_up(e, n, &mut order)
}

// The verdict after edges with these heads appeared in a graph that had a line-up and these starts: is there a line-up?
pub fn judge(e: &[u16], starts: &[u64], heads: &[u16], n: usize) -> bool
    requires { (length e.now ≡ edges_length) × (n ≤ length starts.now) × (n ≤ most_jobs) }
    ensures { Judges e.now starts.now heads.now n result }
{
    if HEADS < heads.len() {
        return has_line_up(e, n);
    }
    let mut left = STEPS;
    for &b in heads {
        match look(e, starts, b, n, left) {
            Turned::Back => return false,
            Turned::Tired => return has_line_up(e, n),
            Turned::Free(x) => left = x,
        }
    }
    true
}

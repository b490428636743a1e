// The first-in first-out walk that mends the starts.
#![tactic(auto, using(crate::proofs::Walking::walking))]

ghost use Rattle.std.specs.Prelude.{◌≡◌, ◌<◌, ◌≤◌, ◌++◌, length};
ghost use Rattle.rules.specs.Reports.{tri};
ghost use Rattle.rules.specs.Sizes.{edges_length, most_jobs};
ghost use Rattle.graphs.specs.Graph.{zeros};
ghost use Rattle.starts.specs.Queues.{Gains};
ghost use Rattle.starts.specs.Walks.{Visit, Walks, most_visits};

use crate::earliest;
use crate::queues::Queue;
use edges::lists::successors;
use rules::Plan;

// Job v, taken from the queue, gets its start anew; if that changed, its successors are queued.
fn visit(e: &[u16], spans: &[u64], starts: &mut [u64], queue: &mut Queue, v: usize)
    requires { (length e.now ≡ edges_length) × (queue.old.jobs ≤ length spans.now) × (queue.old.jobs ≤ length starts.old) × (v < queue.old.jobs) }
    ensures jobs { queue.new.jobs ≡ queue.old.jobs }
    ensures head { queue.new.head ≡ queue.old.head }
    ensures visit { Visit e.now spans.now zeros starts.old v queue.old.jobs queue.old.head queue.old.len queue.old.ring
        queue.old.mark queue.new.len starts.new queue.new.ring queue.new.mark }
{
    queue.mark[v] = 0;
    let x = earliest(e, spans, starts, v, queue.jobs);
    if x == starts[v] {
        return;
    }
    starts[v] = x;
    queue.joins(successors(e, v));
}

// n(n+1)/2
fn fuel_of(n: usize) -> usize
    requires { n ≤ most_jobs }
    ensures { (result ≡ tri n) × (result ≤ most_visits) }
{
    n * (n + 1) / 2
}

// The seeds in order: heads of edges that appeared, vanished through the owner, vanished through waiting owners.
fn seeds(queue: &mut Queue, came: &[u16], went: &[u16], gone: &[u16])
    ensures { Gains (came.now ++ (went.now ++ gone.now)) queue.old queue.new }
{
    queue.joins(came);
    queue.joins(went);
    queue.joins(gone);
}

// Mends the starts from the seeds. Answers how many jobs it visited.
pub fn walk(
    e: &[u16],
    spans: &[u64],
    starts: &mut [u64],
    came: &[u16],
    went: &[u16],
    gone: &[u16],
    n: usize,
) -> u64
    requires { (length e.now ≡ edges_length) × (n ≤ length spans.now) × (n ≤ length starts.old) × (n ≤ most_jobs) }
    ensures { Walks e.now spans.now zeros starts.old
        (came.now ++ (went.now ++ gone.now)) n result starts.new }
{
    let mut queue = Queue::new(n);
    seeds(&mut queue, came, went, gone);
    let mut fuel = fuel_of(n);
    let mut visits: u64 = 0;
    while let Some(v) = queue.pop() {
        if fuel == 0 {
            return visits;
        }
        fuel -= 1;
        visit(e, spans, starts, &mut queue, v);
        visits += 1;
    }
    visits
}

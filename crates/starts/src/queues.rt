// The jobs that wait, first in first out and each once: a ring of `Plan::JOBS` places, with a mark for each job that waits.
#![tactic(auto, using(crate::proofs::Queueing::queueing))]

ghost use Rattle.std.specs.Prelude.{◌≡◌, ◌+◌, ◌-◌, ◌%◌, ◌<◌, ◌≤◌, [], ◌∷◌, length, MatchOption};
ghost use Rattle.rules.specs.Sizes.{most_jobs};

use rules::Plan;

// The place that lies len after head.
fn slot(head: usize, len: usize) -> usize
    requires { (head < most_jobs) × (len ≤ most_jobs) }
    ensures { result ≡ (head + len) % most_jobs }
{
    let k = head + len;
    if k < Plan::JOBS {
        return k;
    }
    k - Plan::JOBS
}

// `len` of the jobs below `jobs` wait, from place `head` on.
#[derive(Drop)]
pub struct Queue {
    pub ring: [u16; Plan::JOBS],
    pub mark: [u8; Plan::JOBS],
    pub head: usize,
    pub len: usize,
    pub jobs: usize,
    pub ghost places: { (length ring ≡ most_jobs) × (length mark ≡ most_jobs) × (head < most_jobs) × (len ≤ most_jobs) × (jobs ≤ most_jobs) },
}

impl Queue {
    ghost use Rattle.starts.specs.Queues.{Fresh, Gains, Stuck, Pops};

    // A queue for the jobs below n, of which none waits.
    pub fn new(n: usize) -> Queue
        requires { n ≤ most_jobs }
        ensures { Fresh n result }
    {
        Queue {
            ring: [0; Plan::JOBS],
            mark: [0; Plan::JOBS],
            head: 0,
            len: 0,
            jobs: n,
        }
    }

    // Job w joins the queue, unless it waits already. A number that is no job is passed over.
    pub fn join(&mut self, w: u16)
        ensures { Gains (w ∷ []) self.old self.new }
    {
        let k = usize::from(w);
        if self.jobs <= k {
            return;
        }
        if self.mark[k] == 1 {
            return;
        }
        if Plan::JOBS <= self.len {
            return;
        }
        self.mark[k] = 1;
        let p = slot(self.head, self.len);
        self.ring[p] = w;
        self.len += 1;
    }

    // The same for each job of a row.
    pub fn joins(&mut self, row: &[u16])
        ensures { Gains row.now self.old self.new }
    {
        for &w in row {
            self.join(w);
        }
    }

    // Takes the first job out, and leaves its mark.
    pub fn pop(&mut self) -> Option<usize>
        ensures { MatchOption result (Stuck self.old) (λ v. Pops self.old v self.new) }
    {
        if self.len == 0 {
            return None;
        }
        let v = usize::from(self.ring[self.head]);
        if self.jobs <= v {
            return None;
        }
        self.head = slot(self.head, 1);
        self.len -= 1;
        Some(v)
    }
}

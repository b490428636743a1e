// The fixed list's edges into the five tables, all at once. `from` never falls, so a new edge is always the last of the successors; its
// tail is kept beside it. The degrees give where the rows start, and each edge goes to the next place of its head's row of predecessors.
ghost use Rattle.std.specs.Prelude.{◌≡◌, ◌+◌, ◌≤◌, length};
ghost use Rattle.edges.specs.Fixed.{Fixing, Written};
ghost use Rattle.edges.specs.Drafting.{Appended, Blank, Drafted, Gathered, Joined, Listing, Ready, Scattered, Spacious};
ghost use Rattle.edges.specs.Drafting.{Turnable, Turned, running, sum};

use crate::{COUNTS, HEADS, ROOM, STARTS, TAIL_STARTS, TAILS, retime, times};
use rules::Plan;

// The edges so far, in the order in which they came: their heads and counts are in the words, their tails are here, and how many lead out
// of each job and to each job.
#[derive(Drop)]
struct Draft {
    tails: [u16; ROOM],
    out: [u16; Plan::JOBS],
    ins: [u16; Plan::JOBS],
    edges: usize,
}

impl Draft {
    // A new edge from u to v, behind the others.
    fn push(&mut self, e: &mut [u16], u: usize, v: usize)
        requires { Spacious e.old self.old u v }
        ensures { Appended e.old self.old u v e.new self.new }
    {
        let t = self.edges;
        e[HEADS + t] = v as u16;
        e[COUNTS + t] = 1;
        self.tails[t] = u as u16;
        self.out[u] += 1;
        self.ins[v] += 1;
        self.edges += 1;
    }

    // One more edge from u to v, where no job after u has an edge.
    fn join(&mut self, e: &mut [u16], u: usize, v: usize)
        requires { Ready e.old self.old u v }
        ensures { Joined e.old self.old u v e.new self.new }
    {
        let t = self.edges;
        let d = usize::from(self.out[u]);
        match words::find(&e[HEADS..HEADS + ROOM], t - d, t, v as u16) {
            Some(p) => {
                let n = times(&e[..], p);
                retime(e, p, n + 1);
            }
            None => self.push(e, u, v),
        }
    }

    // The edges of the pairs whose `to` is below n.
    fn gather(&mut self, e: &mut [u16], from: &[u32], to: &[u32], n: u32)
        requires { Blank e.old self.old × Listing from.now to.now n }
        ensures { Gathered from.now to.now n e.new self.new }
    {
        for (u, v) in from.iter().zip(to) {
            if *v < n {
                self.join(e, *u as usize, *v as usize);
            }
        }
    }

    // The starts of the rows, and the predecessors.
    fn turn(&self, e: &mut [u16])
        requires { Drafted e.old self.now }
        ensures { Turned e.old self.now e.new }
    {
        sums(&mut e[0..STARTS], &self.out);
        sums(&mut e[TAIL_STARTS..TAILS], &self.ins);
        let mut next = [0u16; Plan::JOBS];
        next.copy_from_slice(&e[TAIL_STARTS..TAIL_STARTS + Plan::JOBS]);
        scatter(e, &self.tails[..self.edges], &mut next);
    }
}

// The running sums of d.
fn sums(a: &mut [u16], d: &[u16])
    requires { (length a.old ≡ length d.now + 1) × (sum d.now ≤ 65535) }
    ensures { a.new ≡ running 0 d.now }
{
    let mut s: u16 = 0;
    for (i, k) in d.iter().enumerate() {
        a[i] = s;
        s += *k;
    }
    a[d.len()] = s;
}

// The tail of each edge to the next place of its head's row.
fn scatter(e: &mut [u16], tails: &[u16], next: &mut [u16])
    requires { Turnable e.old tails.now next.old }
    ensures { Scattered e.old tails.now next.old e.new }
{
    for (i, u) in tails.iter().enumerate() {
        let v = usize::from(e[HEADS + i]);
        let p = usize::from(next[v]);
        e[TAILS + p] = *u;
        next[v] += 1;
    }
}

// The edges of the pairs, between n jobs, in place of whatever the tables held.
pub fn fixed(e: &mut [u16], from: &[u32], to: &[u32], n: u32)
    requires { Fixing e.old from.now to.now n }
    ensures { Written from.now to.now n e.new }
{
    e.fill(0);
    let mut draft = Draft {
        tails: [0; ROOM],
        out: [0; Plan::JOBS],
        ins: [0; Plan::JOBS],
        edges: 0,
    };
    draft.gather(e, from, to, n);
    draft.turn(e);
}

// Sets of edges, by their tails, in fixed memory.
#![tactic(auto, using(crate::proofs::Chaining::chaining))]

ghost use Rattle.std.specs.Prelude.{◌≡◌, ◌+◌, ◌-◌, ◌<◌, ◌≤◌, true, [], ◌∷◌, length};
ghost use Rattle.std.specs.Iterator.{YieldsFirst, item_count};
ghost use Rattle.rules.specs.Lists.{all_below};
ghost use Rattle.rules.specs.Moves.{neighbours};
ghost use Rattle.rules.specs.Sizes.{most_entries, most_jobs};
ghost use Rattle.probes.specs.Chains.{Falls, Links, always, blank, heads_of, holds_of, tables};
ghost use Rattle.probes.specs.Aheads.{Chained, links_left};

use crate::view::View;
use rules::Plan;

// A set. A place is written one higher, so that 0 is none.
#[derive(Drop)]
pub struct Chain {
    // Of each job the place of its last edge.
    first: [u16; Plan::JOBS],
    // Of each place the place of the edge before it from that job.
    next: [u16; Plan::ENTRIES],
    // Of each place where the edge leads.
    head: [u16; Plan::ENTRIES],
}

impl Chain {
    // No edge.
    pub fn new() -> Self
        ensures { result ≡ blank }
    {
        Chain {
            first: [0; Plan::JOBS],
            next: [0; Plan::ENTRIES],
            head: [0; Plan::ENTRIES],
        }
    }

    // One more edge, at place k.
    pub fn link(&mut self, k: usize, from: u16, to: u16)
        requires { Falls k self.old × (k < most_entries) × (from < most_jobs) }
        ensures { Links always ((from, to) ∷ []) (k + 1) self.old self.new }
    {
        let u = usize::from(from);
        self.next[k] = self.first[u];
        self.head[k] = to;
        self.first[u] = k as u16 + 1;
    }

    // Where the edges from u lead, the last one first.
    pub fn leads(&self, u: u16) -> Leads<'_>
        requires { Falls most_entries self.now × (u < most_jobs) }
        ensures chained { Chained result }
        ensures left { links_left result ≡ heads_of self.now u }
    {
        leads_in(&self.first, &self.next, &self.head, u)
    }

    // Whether the edge from u to v is one of them.
    pub fn holds(&self, u: u16, v: u16) -> bool
        requires { Falls most_entries self.now × (u < most_jobs) }
        ensures { result ≡ holds_of self.now u v }
    {
        holds_in(&self.first, &self.next, &self.head, u, v)
    }

    // Its edges as those that are off, beside one job's live row.
    pub fn view<'a>(&'a self, row: &'a [u16]) -> View<'a>
        ensures live { result.live.now ≡ row.now }
        ensures off { tables result.first.now result.next.now result.head.now ≡ self.now }
    {
        View {
            live: row,
            first: &self.first,
            next: &self.next,
            head: &self.head,
        }
    }

    // The edges of a list of jobs, each to the next.
    #[tactic(auto, using(crate::proofs::Chaining::linking))]
    pub fn index(&mut self, jobs: &[u16])
        requires { (length jobs.now ≤ most_entries) × (all_below most_jobs jobs.now ≡ true) × Falls 0 self.old }
        ensures { Links always (neighbours jobs.now) most_entries self.old self.new }
    {
        for i in 1..jobs.len() {
            self.link(i - 1, jobs[i - 1], jobs[i]);
        }
    }
}

// On the tables of a set: where the edges from u lead, the last one first.
fn leads_in<'a>(first: &'a [u16], next: &'a [u16], head: &'a [u16], u: u16) -> Leads<'a>
    requires { Falls most_entries (tables first.now next.now head.now) × (u < most_jobs) }
    ensures chained { Chained result }
    ensures left { links_left result ≡ heads_of (tables first.now next.now head.now) u }
{
    Leads {
        first,
        next,
        head,
        at: usize::from(first[usize::from(u)]),
    }
}

// Whether the edge from u to v is one of them.
pub fn holds_in(first: &[u16], next: &[u16], head: &[u16], u: u16, v: u16) -> bool
    requires { Falls most_entries (tables first.now next.now head.now) × (u < most_jobs) }
    ensures { result ≡ holds_of (tables first.now next.now head.now) u v }
{
    for w in leads_in(first, next, head, u) {
        if w == v {
            return true;
        }
    }
    false
}

// What is left of the edges from one job.
#[derive(Drop)]
pub struct Leads<'a> {
    // The tables of the set. No step reads the first: with it the whole set is known.
    first: &'a [u16],
    next: &'a [u16],
    head: &'a [u16],
    // One more than the place of the next edge, 0 for none.
    at: usize,
}

impl<'a> Iterator for Leads<'a> {
    type Item = u16;

    ghost can_next = { Chained };

    ghost next_gives = { YieldsFirst links_left };

    ghost remaining = { item_count links_left };

    fn next(&mut self) -> Option<u16> {
        if self.at == 0 {
            return None;
        }
        let k = self.at - 1;
        self.at = usize::from(self.next[k]);
        Some(self.head[k])
    }
}

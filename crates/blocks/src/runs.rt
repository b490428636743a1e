// Critical arcs, and the runs of them along one route. A route is the words of its stops, each its job twice, and 1 more if it is joined to
// the one before. A number that is no job is not critical.
ghost use Rattle.std.specs.Prelude.{◌≡◌, ◌<◌, ◌≤◌, length};
ghost use Rattle.rules.specs.Sizes.{edges_length, most_jobs};
ghost use Rattle.blocks.specs.Arcs.{Joins};

use edges::lists::successors;

// What a scan reads: durations, starts, the marks of the critical jobs, and how many jobs there are.
#[derive(Clone, Copy)]
pub struct Sight<'a> {
    pub spans: &'a [u64],
    pub starts: &'a [u64],
    pub crit: &'a [u8],
    pub n: usize,
    pub ghost spanned: { n ≤ length spans.now },
    pub ghost started: { n ≤ length starts.now },
    pub ghost marked: { n ≤ length crit.now },
    pub ghost few: { n ≤ most_jobs },
}

// Whether a live edge leads from job u to the job of a stop behind it: at a joined stop it does.
fn joins(e: &[u16], u: usize, stop: u16) -> bool
    requires { length e.now ≡ edges_length }
    ensures { Joins e.now u stop result }
{
    stop % 2 == 1 || successors(e, u).contains(&(stop / 2))
}

impl<'a> Sight<'a> {
    ghost use Rattle.blocks.specs.Arcs.{crit_in, tight_in, Arced, Ended, Begins};
    ghost use Rattle.blocks.specs.Seen.{seen};

    // Whether the job of a stop is critical.
    #[tactic(auto, unfolding(crate::specs::Arcs::crit_in))]
    fn is_critical(self, stop: u16) -> bool
        ensures { result ≡ crit_in self.entry.crit.now self.entry.n stop }
    {
        let v = usize::from(stop / 2);
        v < self.n && self.crit[v] == 1
    }

    // Both jobs are critical, and the first ends as the second starts.
    #[tactic(auto, unfolding(crate::specs::Arcs::tight_in))]
    fn is_tight(self, u: usize, v: usize) -> bool
        requires { (u < self.n) × (v < self.n) }
        ensures { result ≡ tight_in self.entry.spans.now self.entry.starts.now self.entry.crit.now u v }
    {
        self.crit[u] == 1
            && self.crit[v] == 1
            && self.starts[u].wrapping_add(self.spans[u]) == self.starts[v]
    }

    // Whether a critical arc leads from a stop to the next.
    fn is_arc(self, e: &[u16], here: u16, next: u16) -> bool
        requires { length e.now ≡ edges_length }
        ensures { Arced e.now (seen self.entry) here next result }
    {
        let u = usize::from(here / 2);
        let v = usize::from(next / 2);
        u < self.n && v < self.n && self.is_tight(u, v) && joins(e, u, next)
    }

    // Where the run from place `from` ends.
    pub fn run_end(self, e: &[u16], stops: &[u16], from: usize) -> usize
        requires { (length e.now ≡ edges_length) × (from < length stops.now) }
        ensures { Ended e.now (seen self.entry) stops.now from result }
    {
        for last in from..stops.len() - 1 {
            if !self.is_arc(e, stops[last], stops[last + 1]) {
                return last;
            }
        }
        stops.len() - 1
    }

    // The first place from `from` on whose job is critical: there a block begins.
    pub fn first_critical(self, stops: &[u16], from: usize) -> Option<usize>
        ensures { Begins self.entry.crit.now self.entry.n stops.now from result }
    {
        for i in from..stops.len() {
            if self.is_critical(stops[i]) {
                return Some(i);
            }
        }
        None
    }
}

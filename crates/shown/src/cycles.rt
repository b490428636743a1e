// The shown cycle: distances back to a job, then the lowest successor that is one nearer.
#![tactic(auto, using(crate::proofs::Cycled::cycling))]

ghost use Rattle.std.specs.Prelude.{◌≡◌, ◌<◌, ◌≤◌, length};
ghost use Rattle.rules.specs.Sizes.{most_jobs, edges_length};
ghost use Rattle.graphs.specs.Graph.{at};
ghost use Rattle.graphs.specs.Waves.{nearer, nearest_of, lower_of, lowest_of};
ghost use Rattle.shown.specs.Cycles.{Traces, Closes, Cycles};

use crate::distances::measure;
use edges::lists::successors;
use rules::Plan;

// The distance of w, 0 of a number that is no job.
fn far(dist: &[u16], w: u16) -> u16
    ensures { result ≡ at dist.now w }
{
    dist.get(usize::from(w)).copied().unwrap_or(0)
}

// The nearer of what was found and w's distance; 0 is none.
fn nearer_of(dist: &[u16], w: u16, best: u16) -> u16
    ensures { result ≡ nearer (at dist.now w) best }
{
    let d = far(dist, w);
    if d == 0 {
        return best;
    }
    if best == 0 {
        return d;
    }
    d.min(best)
}

// The least distance of a row's jobs, 0 if none leads back.
fn nearest(row: &[u16], dist: &[u16]) -> u16
    ensures { result ≡ nearest_of (at dist.now) 0 row.now }
{
    let mut best: u16 = 0;
    for &w in row {
        best = nearer_of(dist, w, best);
    }
    best
}

// The lower of what was found and w, if w's distance is d.
fn lower_of(dist: &[u16], w: u16, d: u16, low: u16) -> u16
    ensures { result ≡ lower_of (at dist.now w) d w low }
{
    if far(dist, w) == d { low.min(w) } else { low }
}

// The lowest job of a row at distance d, or n.
fn lowest(row: &[u16], dist: &[u16], d: u16, n: u16) -> u16
    ensures { result ≡ lowest_of (at dist.now) d n row.now }
{
    let mut low = n;
    for &w in row {
        low = lower_of(dist, w, d, low);
    }
    low
}

// From v along the lowest successors that are one nearer, d places in all.
fn trace(e: &[u16], v: usize, n: usize, dist: &[u16], d: usize, out: &mut [u16])
    requires { (length e.now ≡ edges_length) × (n ≤ most_jobs) × (v < n) × (d ≤ n) × (length out.old ≡ most_jobs) }
    ensures { Traces e.now v n dist.now d out.old out.new }
{
    let mut u = v as u16;
    for k in 0..d {
        out[k] = u;
        u = lowest(
            successors(e, usize::from(u)),
            dist,
            (d - k) as u16,
            n as u16,
        );
    }
}

// A shortest cycle through v, if there is one: how many places it takes. Without one that is 0, no Option: `verdict` shows so many places.
fn cycle_at(e: &[u16], v: usize, n: usize, out: &mut [u16]) -> usize
    requires { (length e.now ≡ edges_length) × (n ≤ most_jobs) × (v < n) × (length out.old ≡ most_jobs) }
    ensures { Closes e.now v n out.old result out.new }
{
    let mut dist = [0u16; Plan::JOBS];
    measure(e, v, n, &mut dist);
    let d = usize::from(nearest(successors(e, v), &dist));
    if n < d {
        return 0;
    }
    trace(e, v, n, &dist, d, out);
    d
}

// The shown cycle of the n jobs: how many places it takes, 0 if there is none.
pub fn cycle(e: &[u16], n: usize, out: &mut [u16]) -> usize
    requires { (length e.now ≡ edges_length) × (n ≤ most_jobs) × (length out.old ≡ most_jobs) }
    ensures { Cycles e.now n out.old result out.new }
{
    for v in 0..n {
        let k = cycle_at(e, v, n, out);
        if 0 < k {
            return k;
        }
    }
    0
}

// The lowest line-up: again and again the lowest job without predecessors is taken out.
#![tactic(auto, using(crate::proofs::Lowed::lowering))]

ghost use Rattle.std.specs.Prelude.{◌≡◌, ◌<◌, ◌≤◌, [], ◌∷◌, length, MatchOption};
ghost use Rattle.rules.specs.Sizes.{most_jobs, edges_length};
ghost use Rattle.shown.specs.Lowests.{Lessens, Readies, Lowest};

use edges::lists::successors;
use rules::Plan;
use starts::lineup::degrees;

// One predecessor of w less: the lowest job that may be ready is w if it is now ready, and lower.
fn lessen(deg: &mut [u16], w: u16, low: usize) -> usize
    requires { length deg.old ≡ most_jobs }
    ensures { Lessens (w ∷ []) low deg.old result deg.new }
{
    let k = usize::from(w);
    if Plan::JOBS <= k {
        return low;
    }
    let d = deg[k];
    if 1 < d {
        deg[k] = d - 1;
        return low;
    }
    if d == 0 {
        return low;
    }
    deg[k] = 0;
    low.min(k)
}

// The same for each job of a row.
fn lessens(row: &[u16], deg: &mut [u16], from: usize) -> usize
    requires { length deg.old ≡ most_jobs }
    ensures { Lessens row.now from deg.old result deg.new }
{
    let mut low = from;
    for &w in row {
        low = lessen(deg, w, low);
    }
    low
}

// The lowest job of degree 0 from `low` on.
fn ready(deg: &[u16], low: usize, n: usize) -> Option<usize>
    requires { n ≤ length deg.now }
    ensures { MatchOption result (Readies deg.now low n n) (λ p. (p < n) × Readies deg.now low n p) }
{
    for p in low..n {
        if deg[p] == 0 {
            return Some(p);
        }
    }
    None
}

// Whether the n jobs have a line-up, and the lowest; the order is written only if there is one.
pub fn lowest_up(e: &[u16], n: usize, order: &mut [u16]) -> bool
    requires { (length e.now ≡ edges_length) × (length order.old ≡ most_jobs) × (n ≤ most_jobs) }
    ensures { Lowest e.now n order.old result order.new }
{
    let mut jobs = [0u16; Plan::JOBS];
    let mut deg = [0u16; Plan::JOBS];
    degrees(e, &mut jobs, &mut deg, n);
    let mut low = 0;
    for k in 0..n {
        let Some(p) = ready(&deg, low, n) else {
            return false;
        };
        jobs[k] = p as u16;
        deg[p] = 1;
        low = lessens(successors(e, p), &mut deg, p + 1);
    }
    order[..n].copy_from_slice(&jobs[..n]);
    true
}

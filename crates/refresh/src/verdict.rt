// The shown line-up, or the shown cycle.
ghost use Rattle.std.specs.Prelude.{◌≡◌, ◌≤◌, length, take};
ghost use Rattle.std.proofs.lemmas.List.Edits.{sets};
ghost use Rattle.rules.specs.Calls.{to_verdict};
ghost use Rattle.rules.specs.Sizes.{edges_length, most_jobs};
ghost use Rattle.stores.specs.Held.{held};
ghost use Rattle.stores.specs.Promise.{Promise};
ghost use Rattle.refresh.specs.Shows.{Closing, Shows, says_verdict};

use rules::{Plan, Refusal};
use shown::cycles::cycle;
use shown::lowests::lowest_up;
use stores::store::Store;
use words::widen;

// How many jobs are in front of the answer buffer, and what they are.
#[derive(Clone, Copy)]
pub enum Judged {
    LineUp(usize),
    Cycle(usize),
}

// There is no line-up: the cycle.
fn closed(edges: &[u16], n: usize, out: &mut [u32]) -> Judged
    requires { (length edges.now ≡ edges_length) × (n ≤ most_jobs) × (n ≤ length out.old) }
    ensures { Closing edges.now n out.old result out.new }
{
    let mut jobs = [0u16; Plan::JOBS];
    let k = cycle(edges, n, &mut jobs);
    widen(out, 0, &jobs[..k]);
    Judged::Cycle(k)
}

// The line-up, or the cycle.
fn shown(edges: &[u16], n: usize, out: &mut [u32]) -> Judged
    requires { (length edges.now ≡ edges_length) × (n ≤ most_jobs) × (n ≤ length out.old) }
    ensures { Shows edges.now n out.old result out.new }
{
    let mut jobs = [0u16; Plan::JOBS];
    if lowest_up(edges, n, &mut jobs) {
        widen(out, 0, &jobs[..n]);
        return Judged::LineUp(n);
    }
    closed(edges, n, out)
}

pub fn verdict(store: Store, out: &mut [u32]) -> Result<Judged, Refusal>
    ensures { Promise (to_verdict (length out.old))
        (held store.entry) (held store.entry)
        out.old out.new (says_verdict out.new result) }
{
    let plan = store.plan()?;
    let n = plan.jobs as usize;
    if out.len() < n {
        return Err(Refusal::ShortAnswer);
    }
    Ok(shown(&store.edges[..Plan::EDGES], n, out))
}

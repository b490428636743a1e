// A load: every argument is checked, then every word is written.
ghost use Rattle.std.specs.Prelude.{◌≡◌, ◌++◌, ◌∷◌, [], ◌+◌, ◌-◌, ◌≤◌, length, drop, replicate};
ghost use Rattle.std.specs.List.{list_any};
ghost use Rattle.std.proofs.lemmas.List.Edits.{sets};
ghost use Rattle.rules.specs.Lists.{any_of};
ghost use Rattle.rules.specs.Sizes.{base_of, is_long, base_length, edges_length, most_fixed, most_jobs, routes_length, spans_length, times_length};
ghost use Rattle.rules.specs.Refusals.{first_of, load_checks};
ghost use Rattle.rules.specs.Routes.{fresh};
ghost use Rattle.rules.specs.Calls.{to_load};
ghost use Rattle.refresh.specs.Loads.{loads, breaks_by, bad_after, checked_as};
ghost use Rattle.refresh.specs.Fills.{Loadable, Laid, Rates, Filled};
ghost use Rattle.stores.specs.Promise.{AnyPromise, slices};
ghost use Rattle.stores.specs.Says.{says_scored};

use edges::fixed::fixed;
use routes::route::no_routes;
use rules::{Plan, Refusal, Score};
use stores::base::{write_base, write_spans};
use stores::score::score_of;
use times::settle::anew;

// What is loaded. The fixed list is two tables: the pair i leads from the job from[i] to the job to[i].
#[derive(Clone, Copy)]
pub struct Loading<'a> {
    pub jobs: u32,
    pub owners: u32,
    pub durations: &'a [u64],
    pub expected: &'a [u32],
    pub from: &'a [u32],
    pub to: &'a [u32],
}

// A count, or a table's length, breaks its size: the counts and the lengths alone are asked for, as `breaks_by` says it.
#[tactic(auto, unfolding(crate::specs::Loads::breaks_by))]
fn breaks(jobs: u32, owners: u32, durations: usize, expected: usize, from: usize, to: usize) -> bool
    ensures { result ≡ breaks_by jobs owners durations expected from to }
{
    if Plan::FIXED < from {
        return true;
    }
    let plan = Plan {
        jobs,
        owners,
        fixed: from as u32,
    };
    let n = jobs as usize;
    !plan.fits() || from != to || durations != n || (expected != 0 && expected != n)
}

// A duration is too long.
fn has_long(durations: &[u64]) -> bool
    ensures { result ≡ list_any is_long durations.now }
{
    durations.iter().any(|d| Plan::too_long(*d))
}

// A tail is no job, or the tails fall.
// A `for`: each tail is compared with a bound and with the tail before it, in one pass.
fn bad_from(from: &[u32], n: u32) -> bool
    ensures { result ≡ bad_after n 0 from.now }
{
    let mut last = 0;
    for &a in from {
        if n <= a || a < last {
            return true;
        }
        last = a;
    }
    false
}

// Refusals 2, 3 and 4, in this order.
fn check(what: Loading) -> Result<(), Refusal>
    ensures { result ≡ checked_as (first_of (load_checks (loads what.entry))) }
{
    if breaks(
        what.jobs,
        what.owners,
        what.durations.len(),
        what.expected.len(),
        what.from.len(),
        what.to.len(),
    ) {
        return Err(Refusal::BadSize);
    }
    if has_long(what.durations) {
        return Err(Refusal::LongDuration);
    }
    if bad_from(what.from, what.jobs) {
        return Err(Refusal::BadFixed);
    }
    Ok(())
}

// Every word but the times: only the fixed list gives edges, since every route is empty.
fn write(base: &mut [u32], spans: &mut [u64], edges: &mut [u16], routes: &mut [u16], what: Loading)
    requires { Loadable (loads what) (length base.old) (length spans.old) (length edges.old) (length routes.old) }
    ensures { Laid (fresh (base_of (loads what.entry)))
        base.old spans.old edges.old routes.old
        base.new spans.new edges.new routes.new }
{
    write_base(
        base,
        what.jobs,
        what.owners,
        what.expected,
        what.from,
        what.to,
    );
    write_spans(spans, what.durations);
    fixed(&mut edges[..Plan::EDGES], what.from, what.to, what.jobs);
    no_routes(routes);
}

// The times of the plan whose other words are there, and its score.
fn first_score(
    base: &[u32],
    spans: &[u64],
    edges: &[u16],
    routes: &[u16],
    times: &mut [u64],
    plan: Plan,
) -> Result<Score, Refusal>
    requires { (base_length ≤ length base.now) × (spans_length ≤ length spans.now) × (edges_length ≤ length edges.now)
        × (routes_length ≤ length routes.now) × (times_length ≤ length times.old) × (plan.jobs ≤ most_jobs) }
    ensures { Rates base.now spans.now edges.now routes.now times.old
        plan.jobs result times.new }
{
    anew(
        &edges[..Plan::EDGES],
        &spans[..Plan::SPANS],
        &mut times[..Plan::TIMES],
        plan.jobs as usize,
    );
    score_of(base, routes, &times[..], plan)
}

// The plan in place of whatever the store held, and its score.
fn fill(
    base: &mut [u32],
    spans: &mut [u64],
    edges: &mut [u16],
    routes: &mut [u16],
    times: &mut [u64],
    what: Loading,
) -> Result<Score, Refusal>
    requires { Loadable (loads what) (length base.old) (length spans.old) (length edges.old) (length routes.old)
        × (times_length ≤ length times.old) }
    ensures { Filled (fresh (base_of (loads what.entry)))
        (slices base.old spans.old edges.old routes.old times.old)
        (slices base.new spans.new edges.new routes.new times.new) result }
{
    write(base, spans, edges, routes, what);
    let plan = Plan {
        jobs: what.jobs,
        owners: what.owners,
        fixed: what.from.len() as u32,
    };
    first_score(&base[..], &spans[..], &edges[..], &routes[..], times, plan)
}

// Five slices, and no struct of them: each is lent to be written, in a step of its own.
pub fn load(
    base: &mut [u32],
    spans: &mut [u64],
    edges: &mut [u16],
    routes: &mut [u16],
    times: &mut [u64],
    what: Loading,
) -> Result<Score, Refusal>
    ensures { AnyPromise (to_load (loads what.entry))
        (slices base.old spans.old edges.old routes.old times.old)
        (slices base.new spans.new edges.new routes.new times.new)
        (says_scored result) }
{
    if Plan::short(
        base.len(),
        spans.len(),
        edges.len(),
        routes.len(),
        times.len(),
    ) {
        return Err(Refusal::ShortStore);
    }
    check(what)?;
    fill(base, spans, edges, routes, times, what)
}

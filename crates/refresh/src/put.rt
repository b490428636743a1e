// A put: score after minus score before, and the report.
ghost use Rattle.std.specs.Prelude.{◌≡◌, [], ◌≤◌, ◌<◌, length};
ghost use Rattle.rules.specs.Calls.{to_put};
ghost use Rattle.rules.specs.Sizes.{base_length, edges_length, most_entries, most_jobs, most_owners, routes_length, spans_length, times_length};
ghost use Rattle.stores.specs.Promise.{Promise, slices};
ghost use Rattle.refresh.specs.Changes.{Follows, Changes, says_changed};

use routes::ask::asked;
use rules::{Owner, Plan, Refusal, Report, Score};
use stores::base::expected;
use stores::header::opened;
use stores::score::score_of;
use times::settle::refresh;

// The score after minus the score before, part by part, and what was done to the starts.
#[derive(Clone, Copy)]
pub struct Change {
    pub score: Score,
    pub report: Report,
}

// The routes and the edges change, then the times follow.
fn follow(
    base: &[u32],
    spans: &[u64],
    edges: &mut [u16],
    routes: &mut [u16],
    times: &mut [u64],
    plan: Plan,
    owner: Owner,
    entries: &[u32],
) -> Result<Report, Refusal>
    requires sizes { (base_length ≤ length base.now) × (length spans.now ≡ spans_length) × (length edges.old ≡ edges_length) × (length routes.old ≡ routes_length)
        × (length times.old ≡ times_length) }
    requires low { (plan.jobs ≤ most_jobs) × (owner.0 < most_owners) × (length entries.now ≤ most_entries) }
    ensures { Follows (slices base.now spans.now edges.old routes.old times.old)
        (slices base.now spans.now edges.new routes.new times.new)
        plan.jobs owner.0 entries.now result }
{
    let mut came = [0u16; Plan::ENTRIES];
    let mut went = [0u16; Plan::ENTRIES];
    let mut gone = [0u16; Plan::ENTRIES];
    let heads = puts::put::put(
        routes,
        edges,
        expected(base),
        plan,
        owner,
        entries,
        &mut came,
        &mut went,
        &mut gone,
    )?;
    Ok(refresh(
        edges,
        spans,
        times,
        &came[..heads.came],
        &went[..heads.went],
        &gone[..heads.gone],
        plan.jobs as usize,
    ))
}

// The score before, the change, the score after.
fn rescore(
    base: &[u32],
    spans: &[u64],
    edges: &mut [u16],
    routes: &mut [u16],
    times: &mut [u64],
    plan: Plan,
    owner: Owner,
    entries: &[u32],
) -> Result<Change, Refusal>
    requires sizes { (base_length ≤ length base.now) × (length spans.now ≡ spans_length) × (length edges.old ≡ edges_length) × (length routes.old ≡ routes_length)
        × (length times.old ≡ times_length) }
    requires low { (plan.jobs ≤ most_jobs) × (owner.0 < most_owners) × (length entries.now ≤ most_entries) }
    ensures { Changes (slices base.now spans.now edges.old routes.old times.old)
        (slices base.now spans.now edges.new routes.new times.new)
        plan.jobs owner.0 entries.now result }
{
    let before = score_of(base, routes, times, plan)?;
    let report = follow(base, spans, edges, routes, times, plan, owner, entries)?;
    let after = score_of(base, routes, times, plan)?;
    Ok(Change {
        score: after.minus(before),
        report: report,
    })
}

// Five slices, and no struct of them: three are lent to be written, the others to be read.
pub fn put(
    base: &[u32],
    spans: &[u64],
    edges: &mut [u16],
    routes: &mut [u16],
    times: &mut [u64],
    owner: Owner,
    entries: &[u32],
) -> Result<Change, Refusal>
    ensures { Promise (to_put owner.0 entries.now)
        (slices base.now spans.now edges.old routes.old times.old)
        (slices base.now spans.now edges.new routes.new times.new)
        [] [] (says_changed result) }
{
    let plan = opened(base, spans.len(), edges.len(), routes.len(), times.len())?;
    asked(plan, owner, entries.len())?;
    rescore(
        base,
        &spans[..Plan::SPANS],
        &mut edges[..Plan::EDGES],
        &mut routes[..Plan::ROUTES],
        &mut times[..Plan::TIMES],
        plan,
        owner,
        entries,
    )
}

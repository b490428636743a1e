// The score, from what the store holds.
ghost use Rattle.std.specs.Prelude.{◌≡◌, ◌+◌, ◌≤◌, length};
ghost use Rattle.rules.specs.Scores.{assignment as assignment_of};
ghost use Rattle.rules.specs.Calls.{to_score};
ghost use Rattle.rules.specs.Sizes.{most_jobs, routes_length, times_length};
ghost use Rattle.stores.specs.Held.{held};
ghost use Rattle.stores.specs.Promise.{Reads};
ghost use Rattle.stores.specs.Says.{says_counted};
ghost use Rattle.stores.specs.Words.{from_at};
ghost use Rattle.stores.specs.Sums.{Summed, Tallied, Penal, ScoredBy};

use crate::store::Store;
use routes::rows::{assigned, faults};
use rules::{Plan, Refusal, Score};
use times::{is_cyclic, makespan};

// A makespan of more no plan has.
const LIMIT: u64 = 1 << 50;

// The sum of a row.
fn sum_of(s: &[u16]) -> u64
    requires { length s.now ≤ routes_length }
    ensures { Summed s.now result }
{
    s.iter().map(|x| u64::from(*x)).sum()
}

// A job in force c times.
fn assignment(c: u16) -> u64
    ensures { (result ≡ assignment_of c) × (result ≤ 65535) }
{
    if c == 0 { 1 } else { u64::from(c - 1) }
}

// What the first n jobs are in force too often, or not at all; a says how often each is.
fn assignments(a: &[u16], n: usize) -> u64
    requires { (n ≤ length a.now) × (n ≤ most_jobs) }
    ensures { Tallied a.now n result }
{
    a[..n].iter().map(|c| assignment(*c)).sum()
}

// All but the cycle penalty.
fn static_penalty(base: &[u32], routes: &[u16], plan: Plan) -> u64
    requires { (from_at ≤ length base.now) × (length routes.now ≡ routes_length) × (plan.jobs ≤ most_jobs) }
    ensures { Penal base.now routes.now plan.jobs result }
{
    let fixed = u64::from(base[4]);
    let owners = sum_of(faults(routes));
    let jobs = assignments(assigned(routes), plan.jobs as usize);
    fixed + owners + jobs
}

// The score of a loaded store.
pub fn score_of(base: &[u32], routes: &[u16], times: &[u64], plan: Plan) -> Result<Score, Refusal>
    requires { (from_at ≤ length base.now) × (routes_length ≤ length routes.now) × (times_length ≤ length times.now) × (plan.jobs ≤ most_jobs) }
    ensures { ScoredBy base.now routes.now times.now plan.jobs result }
{
    let penalty = static_penalty(base, &routes[..Plan::ROUTES], plan);
    let span = makespan(times);
    if LIMIT < span {
        return Err(Refusal::BadStore);
    }
    let cycle = if is_cyclic(times) {
        u64::from(plan.jobs)
    } else {
        0
    };
    Ok(Score::of(penalty + cycle, span))
}

// Score and match count.
pub fn score(store: Store) -> Result<(Score, u64), Refusal>
    ensures { Reads to_score (held store.entry) (says_counted result) }
{
    let plan = store.plan()?;
    let score = score_of(store.base, store.routes, store.times, plan)?;
    Ok((score, score.match_count()))
}

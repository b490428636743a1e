// A put: waiting owners give up their routes in turn, then the owner's route becomes the new one.
ghost use Rattle.std.specs.Prelude.{◌≡◌, ◌<◌, ◌≤◌, length};
ghost use Rattle.rules.specs.Sizes.{most_jobs, most_entries, edges_length, routes_length};
ghost use Rattle.puts.specs.Puts.{RouteTurn, OneEmptied, EachEmptied, AllEmptied, Crowded, StopsPut, PutPromised};

use routes::exchange::exchange;
use routes::route::{Route, fits, put_route};
use routes::rows::{in_force, stops};
use routes::snap::snapshot;
use routes::wait::{clear, freed, waiting};
use rules::{Owner, Plan, Refusal, Senseless};

// The owner gets the route, and the edges follow: the heads of those that vanished are listed in `went`, of those that
// appeared in `came`. The answer is how many of both.
fn swap_route(
    r: &mut [u16],
    e: &mut [u16],
    owner: Owner,
    route: Route,
    went: &mut [u16],
    came: &mut [u16],
) -> Result<(usize, usize), Senseless>
    requires sizes { (length r.old ≡ routes_length) × (length e.old ≡ edges_length) × (length route.stops.now ≤ most_entries) }
    requires room { length route.stops.now ≤ length came.old }
    ensures { RouteTurn r.old e.old owner.0 route.entry.stops.now route.entry.invalid route.entry.violated r.new e.new
        went.old went.new came.new result }
{
    if !fits(&r[..], owner, route.stops.len()) {
        return Err(Senseless);
    }
    let heads = exchange(e, stops(&r[..], owner), route.stops, went, came)?;
    put_route(r, owner, route);
    Ok(heads)
}

// The waiting owner w, unless it is `owner`, gets an empty route. The answer is how many heads of edges that vanished are
// listed.
fn empty_one(
    r: &mut [u16],
    e: &mut [u16],
    w: u16,
    owner: Owner,
    went: &mut [u16],
) -> Result<usize, Senseless>
    requires { (length r.old ≡ routes_length) × (length e.old ≡ edges_length) }
    ensures { OneEmptied r.old e.old w owner.0 r.new e.new
        went.old went.new result }
{
    let waiter = u32::from(w);
    if waiter == owner.0 {
        return Ok(0);
    }
    let none = Route {
        stops: &[],
        invalid: 0,
        violated: 0,
    };
    let (h, _) = swap_route(r, e, Owner(waiter), none, went, &mut [])?;
    Ok(h)
}

// The owners of a row in turn, and how many heads are listed.
fn empty_each(
    r: &mut [u16],
    e: &mut [u16],
    row: &[u16],
    owner: Owner,
    went: &mut [u16],
) -> Result<usize, Senseless>
    requires { (length r.old ≡ routes_length) × (length e.old ≡ edges_length) × (most_entries ≤ length went.old) }
    ensures { EachEmptied r.old e.old row.now owner.0 r.new e.new
        went.old went.new result }
{
    let mut h = 0;
    for &w in row {
        h += empty_one(r, e, w, owner, &mut went[h..])?;
    }
    Ok(h)
}

// All that wait, and nobody waits any more. Who waits is copied, since the routes change on the way.
fn empty_all(
    r: &mut [u16],
    e: &mut [u16],
    owner: Owner,
    went: &mut [u16],
) -> Result<usize, Senseless>
    requires { (length r.old ≡ routes_length) × (length e.old ≡ edges_length) × (most_entries ≤ length went.old) }
    ensures { AllEmptied r.old e.old owner.0 r.new e.new
        went.old went.new result }
{
    let mut who = [0u16; Plan::OWNERS];
    let row = waiting(&r[..]);
    let k = row.len();
    who[..k].copy_from_slice(row);
    let h = empty_each(r, e, &who[..k], owner, went)?;
    clear(r);
    Ok(h)
}

// After the put more than `Plan::ENTRIES` valid entries would be in force.
fn crowded(r: &[u16], owner: Owner, valid: usize) -> bool
    requires { (length r.now ≡ routes_length) × (valid ≤ most_entries) }
    ensures { Crowded r.now owner.0 valid result }
{
    let out = freed(r, owner);
    let own = stops(r, owner).len();
    Plan::ENTRIES + out + own < in_force(r) + valid
}

// How many heads of edges a put listed: of those that appeared, vanished through the owner, and vanished through waiting owners.
#[derive(Clone, Copy)]
pub struct Heads {
    pub came: usize,
    pub went: usize,
    pub gone: usize,
}

// The waiting owners give up their routes, then the owner gets its own.
fn put_stops(
    r: &mut [u16],
    e: &mut [u16],
    owner: Owner,
    route: Route,
    came: &mut [u16],
    went: &mut [u16],
    gone: &mut [u16],
) -> Result<Heads, Senseless>
    requires sizes { (length r.old ≡ routes_length) × (length e.old ≡ edges_length) × (length route.stops.now ≤ most_entries) }
    requires room { (most_entries ≤ length came.old) × (most_entries ≤ length went.old) × (most_entries ≤ length gone.old) }
    ensures { StopsPut r.old e.old owner.0 route.entry.stops.now route.entry.invalid route.entry.violated r.new e.new
        came.old came.new went.old went.new gone.old gone.new result }
{
    let g = empty_all(r, e, owner, gone)?;
    let (h, c) = swap_route(r, e, owner, route, went, came)?;
    Ok(Heads {
        came: c,
        went: h,
        gone: g,
    })
}

// The owner's route becomes these entries. The heads of edges that appeared are listed in `came`, of those that vanished through the owner
// in `went`, and through waiting owners in `gone`.
// The slices stand apart, not in a struct: each is lent mutably, and the caller goes on with each by itself.
pub fn put(
    r: &mut [u16],
    e: &mut [u16],
    expected: &[u32],
    plan: Plan,
    owner: Owner,
    entries: &[u32],
    came: &mut [u16],
    went: &mut [u16],
    gone: &mut [u16],
) -> Result<Heads, Refusal>
    requires sizes { (length r.old ≡ routes_length) × (length e.old ≡ edges_length) × (length entries.now ≤ most_entries) × (plan.jobs ≤ most_jobs) }
    requires room { (most_entries ≤ length came.old) × (most_entries ≤ length went.old) × (most_entries ≤ length gone.old) }
    ensures { PutPromised r.old e.old expected.now plan.jobs owner.0 entries.now
        r.new e.new came.old came.new went.old went.new
        gone.old gone.new result }
{
    let mut all = [0u16; Plan::ENTRIES];
    let snap = snapshot(entries, plan, expected, owner, &mut all);
    if crowded(&r[..], owner, snap.valid) {
        return Err(Refusal::NoRoom);
    }
    let route = Route {
        stops: &all[..snap.valid],
        invalid: snap.invalid as u16,
        violated: snap.violations as u16,
    };
    match put_stops(r, e, owner, route, came, went, gone) {
        Ok(heads) => Ok(heads),
        Err(Senseless) => Err(Refusal::BadStore),
    }
}

// An owner's route becomes another, in the words of the routes.
#![tactic(auto, using(crate::proofs::Reseating::fitting))]

ghost use Rattle.std.specs.Prelude.{◌≡◌, ◌≤◌, length, replicate};
ghost use Rattle.std.proofs.lemmas.List.Edits.{sets};
ghost use Rattle.rules.specs.Sizes.{most_entries, routes_length};
ghost use Rattle.routes.specs.Raw.{Lies, settled};
ghost use Rattle.routes.specs.Promises.{Fits, RoutesTurn};

use crate::counts::{recount, unassign};
use crate::splices::{shift, shift_of, splice};
use crate::{ASSIGNED, INVALID, STOPS, VIOLATED, WAITERS};
use rules::{Owner, Plan};

// Whether the owner's stops make sense, and k others have room in their place.
pub fn fits(r: &[u16], owner: Owner, k: usize) -> bool
    requires { (length r.now ≡ routes_length) × (k ≤ most_entries) }
    ensures { Fits r.now owner.0 k result }
{
    let o = owner.0 as usize;
    if Plan::OWNERS <= o {
        return false;
    }
    let f = usize::from(r[o]);
    let t = usize::from(r[o + 1]);
    let n = usize::from(r[Plan::OWNERS]);
    if t < f {
        return false;
    }
    if n < t {
        return false;
    }
    if Plan::ENTRIES < n {
        return false;
    }
    n - (t - f) + k <= Plan::ENTRIES
}

// Owner o's stops give way to s: what is assigned, the stops and the offsets follow.
fn settle(r: &mut [u16], o: usize, s: &[u16])
    requires { (length r.old ≡ routes_length) × Lies r.old o (length s.now) }
    ensures { r.new ≡ settled o s.now r.old }
{
    let f = usize::from(r[o]);
    let t = usize::from(r[o + 1]);
    let n = usize::from(r[Plan::OWNERS]);
    unassign(r, f, t);
    recount(&mut r[ASSIGNED..WAITERS], s, true);
    splice(&mut r[STOPS..INVALID], f, t, n, s);
    shift(&mut r[0..STOPS], o + 1, shift_of(t - f, s.len()));
}

// A route that an owner gets: its stops, and with how many invalid entries and violations.
#[derive(Clone, Copy)]
pub struct Route<'a> {
    pub stops: &'a [u16],
    pub invalid: u16,
    pub violated: u16,
}

// The owner gets the route.
pub fn put_route(r: &mut [u16], owner: Owner, route: Route)
    requires { (length r.old ≡ routes_length) × Lies r.old owner.0 (length route.stops.now) }
    ensures { RoutesTurn r.old owner.0 route.entry.stops.now route.entry.invalid route.entry.violated r.new }
{
    let o = owner.0 as usize;
    settle(r, o, route.stops);
    r[INVALID + o] = route.invalid;
    r[VIOLATED + o] = route.violated;
}

// Nobody has a route, and nobody waits.
pub fn no_routes(r: &mut [u16])
    requires { routes_length ≤ length r.old }
    ensures { r.new ≡ sets r.old 0 (replicate routes_length 0) }
{
    words::fill(r, 0, Plan::ROUTES, 0);
}

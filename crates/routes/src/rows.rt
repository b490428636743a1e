// What the words hold of the routes, handed out: rows are parts of the caller's slice. For words that make no sense a row is empty.
#![tactic(auto, using(crate::proofs::Placing::handing))]

ghost use Rattle.std.specs.Prelude.{◌≡◌, length};
ghost use Rattle.rules.specs.Sizes.{routes_length};
ghost use Rattle.routes.specs.Handing.{Stopped, Forced, Broken, Faults, Assigned};

use crate::{ASSIGNED, INVALID, STOPS, WAITERS};
use rules::{Owner, Plan};

// The owner's stops.
pub fn stops(r: &[u16], owner: Owner) -> &[u16]
    requires { length r.now ≡ routes_length }
    ensures { Stopped r.now owner.0 result.now }
{
    let o = owner.0 as usize;
    if Plan::OWNERS <= o {
        return &r[..0];
    }
    let f = usize::from(r[o]);
    let t = usize::from(r[o + 1]);
    if t < f {
        return &r[..0];
    }
    if Plan::ENTRIES < t {
        return &r[..0];
    }
    &r[STOPS + f..STOPS + t]
}

// How many stops all owners have.
pub fn in_force(r: &[u16]) -> usize
    requires { length r.now ≡ routes_length }
    ensures { Forced r.now result }
{
    usize::from(r[Plan::OWNERS])
}

// Whether the owner's route was put with an invalid entry.
pub fn is_broken(r: &[u16], owner: Owner) -> bool
    requires { length r.now ≡ routes_length }
    ensures { Broken r.now owner.0 result }
{
    let o = owner.0 as usize;
    if Plan::OWNERS <= o {
        return false;
    }
    0 < r[INVALID + o]
}

// The invalid entries of each owner, then the violations of each.
pub fn faults(r: &[u16]) -> &[u16]
    requires { length r.now ≡ routes_length }
    ensures { Faults r.now result.now }
{
    &r[INVALID..ASSIGNED]
}

// How often each job is in force, for every job that there can be.
pub fn assigned(r: &[u16]) -> &[u16]
    requires { length r.now ≡ routes_length }
    ensures { Assigned r.now result.now }
{
    &r[ASSIGNED..WAITERS]
}

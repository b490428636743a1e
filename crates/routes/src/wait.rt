// The waiting owners, in the order they began to wait.
#![tactic(auto, using(crate::proofs::Waits::freeing))]

ghost use Rattle.std.specs.Prelude.{◌≡◌, ◌<◌, length, IfErr};
ghost use Rattle.rules.specs.Sizes.{most_owners, routes_length};
ghost use Rattle.routes.specs.Handing.{Waiting, GivenUp, Freed};
ghost use Rattle.routes.specs.Promises.{Retracted, Cleared};

use crate::rows::stops;
use crate::{WAITERS, WAITING};
use rules::{Owner, Plan, Senseless};

// Who waits.
pub fn waiting(r: &[u16]) -> &[u16]
    requires { length r.now ≡ routes_length }
    ensures { Waiting r.now result.now }
{
    let k = usize::from(r[WAITERS]);
    if Plan::OWNERS < k {
        return &r[..0];
    }
    &r[WAITING..WAITING + k]
}

// How many stops the waiting owner w gives up in a put for `owner`.
fn given_up(r: &[u16], w: u16, owner: Owner) -> usize
    requires { length r.now ≡ routes_length }
    ensures { GivenUp r.now owner.0 w result }
{
    let waiter = u32::from(w);
    if waiter == owner.0 {
        return 0;
    }
    stops(r, Owner(waiter)).len()
}

// How many stops the waiting owners other than `owner` give up.
pub fn freed(r: &[u16], owner: Owner) -> usize
    requires { length r.now ≡ routes_length }
    ensures { Freed r.now owner.0 result }
{
    let mut sum = 0;
    for &w in waiting(r) {
        sum += given_up(r, w, owner);
    }
    sum
}

// The owner waits, behind the others, unless it waits already.
pub fn retract(r: &mut [u16], owner: Owner) -> Result<(), Senseless>
    requires { (length r.old ≡ routes_length) × (owner.0 < most_owners) }
    ensures waits { Retracted r.old owner.0 r.new result }
    ensures stays { IfErr result (λ e. r.new ≡ r.old) }
{
    let x = owner.0 as u16;
    let k = usize::from(r[WAITERS]);
    if Plan::OWNERS < k {
        return Err(Senseless);
    }
    if waiting(&r[..]).contains(&x) {
        return Ok(());
    }
    if k == Plan::OWNERS {
        return Err(Senseless);
    }
    r[WAITING + k] = x;
    r[WAITERS] = k as u16 + 1;
    Ok(())
}

// Nobody waits any more.
pub fn clear(r: &mut [u16])
    requires { length r.old ≡ routes_length }
    ensures { Cleared r.old r.new }
{
    words::fill(r, WAITERS, Plan::ROUTES, 0);
}

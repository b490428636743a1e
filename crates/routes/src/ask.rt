// What a put is refused for before the routes are looked at.
#![tactic(auto, using(crate::proofs::Asking::asking))]

ghost use Rattle.std.specs.Prelude.{◌≡◌};
ghost use Rattle.routes.specs.Asks.{ask_of};

use rules::{Owner, Plan, Refusal};

// First the owner, then the number of entries.
pub fn asked(plan: Plan, owner: Owner, entries: usize) -> Result<(), Refusal>
    ensures { result ≡ ask_of plan.owners owner.0 entries }
{
    if !plan.has_owner(owner) {
        return Err(Refusal::NoSuchOwner);
    }
    if Plan::too_many(entries) {
        return Err(Refusal::TooManyEntries);
    }
    Ok(())
}

// An owner waits.
ghost use Rattle.std.specs.Prelude.{[]};
ghost use Rattle.rules.specs.Calls.{to_retract};
ghost use Rattle.stores.specs.Promise.{Promise, slices};
ghost use Rattle.stores.specs.Says.{says_ended};

use crate::header::opened;
use rules::{Owner, Plan, Refusal, Senseless};

// Five slices, and no struct of them: one is lent to be written, the others to be read.
pub fn retract(
    base: &[u32],
    spans: &[u64],
    edges: &[u16],
    routes: &mut [u16],
    times: &[u64],
    owner: Owner,
) -> Result<(), Refusal>
    ensures { Promise (to_retract owner.0)
        (slices base.now spans.now edges.now routes.old times.now)
        (slices base.now spans.now edges.now routes.new times.now)
        [] [] (says_ended result) }
{
    let plan = opened(base, spans.len(), edges.len(), routes.len(), times.len())?;
    if !plan.has_owner(owner) {
        return Err(Refusal::NoSuchOwner);
    }
    match routes::wait::retract(&mut routes[..Plan::ROUTES], owner) {
        Ok(()) => Ok(()),
        Err(Senseless) => Err(Refusal::BadStore),
    }
}

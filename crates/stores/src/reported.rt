// The starts.
ghost use Rattle.std.specs.Prelude.{length};
ghost use Rattle.rules.specs.Calls.{to_starts};
ghost use Rattle.stores.specs.Held.{held};
ghost use Rattle.stores.specs.Promise.{Promise};
ghost use Rattle.stores.specs.Says.{says_started};

use crate::store::Store;
use rules::Refusal;
use words::copy_to;

// How many starts are in front of the answer buffer.
pub fn starts(store: Store, out: &mut [u64]) -> Result<usize, Refusal>
    ensures { Promise (to_starts (length out.old))
        (held store.entry) (held store.entry)
        out.old out.new (says_started out.new result) }
{
    let plan = store.plan()?;
    let n = plan.jobs as usize;
    if out.len() < n {
        return Err(Refusal::ShortAnswer);
    }
    copy_to(out, 0, &times::starts(store.times)[..n]);
    Ok(n)
}

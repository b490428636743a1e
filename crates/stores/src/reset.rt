// The store is not loaded.
ghost use Rattle.rules.specs.Calls.{to_reset};
ghost use Rattle.stores.specs.Promise.{AnyPromise, slices};
ghost use Rattle.stores.specs.Says.{says_ended};

use rules::{Plan, Refusal};

// Five slices, and no struct of them: one is lent to be written, the others to be read.
pub fn reset(
    base: &mut [u32],
    spans: &[u64],
    edges: &[u16],
    routes: &[u16],
    times: &[u64],
) -> Result<(), Refusal>
    ensures { AnyPromise to_reset
        (slices base.old spans.now edges.now routes.now times.now)
        (slices base.new spans.now edges.now routes.now times.now)
        (says_ended result) }
{
    if Plan::short(
        base.len(),
        spans.len(),
        edges.len(),
        routes.len(),
        times.len(),
    ) {
        return Err(Refusal::ShortStore);
    }
    base[0] = 0;
    Ok(())
}

// The critical blocks, as records in a lent list.
ghost use Rattle.stores.specs.Promise.{slices};
ghost use Rattle.capi.specs.Numbers.{AnswersBlocks};

use crate::numbers::{TOLD, listed};
use moves::blocks;
use refresh::store::Store;
use rules::Block;

// The blocks of a list of owners, as records.
#[unsafe(no_mangle)]
pub extern "C" fn notekarip_blocks(
    base: &[u32],
    spans: &[u64],
    edges: &[u16],
    routes: &[u16],
    times: &[u64],
    owners: &[u32],
    out: &mut [Block],
    told: &mut [u64; TOLD],
) -> u32
    ensures { AnswersBlocks owners.now
        (slices base.now spans.now edges.now routes.now times.now)
        (slices base.now spans.now edges.now routes.now times.now)
        out.old out.new told.old told.new result }
{
    let store = Store {
        base,
        spans,
        edges,
        routes,
        times,
    };
    listed(blocks(store, owners, out), told)
}

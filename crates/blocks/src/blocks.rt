// The public calls: the critical blocks of a list of owners, written as records into a lent list, or found one at a time.
ghost use Rattle.std.specs.Prelude.{◌≡◌, ◌<◌, ◌≤◌, length, slice_set};
ghost use Rattle.rules.specs.Sizes.{edges_length, most_jobs, routes_length};
ghost use Rattle.stores.specs.Held.{held};
ghost use Rattle.blocks.specs.Overs.{begun};
ghost use Rattle.blocks.specs.Searches.{Counts};
ghost use Rattle.blocks.specs.Promise.{BlocksPromise, SearchPromise, NextPromise, says_blocked};

use crate::critical::critical;
use crate::owners::Asked;
use crate::runs::Sight;
use rules::{Block, Plan, Refusal};
use stores::store::Store;
use times::{is_cyclic, makespan};

// What a search found: the critical jobs, where to go on from, and how many blocks there are.
#[derive(Clone, Copy)]
pub struct Found {
    crit: [u8; Plan::JOBS],
    pub spot: Spot,
    pub count: usize,
}

// A block, with the place of its owner in the list and the place behind it, where the search goes on.
#[derive(Clone, Copy)]
pub struct Spot {
    pub block: Block,
    pub(crate) owner: usize,
    pub(crate) place: usize,
}

// Before the first block.
pub(crate) fn outset() -> Spot
    ensures { result ≡ begun }
{
    Spot {
        block: Block {
            owner: 0,
            first: 0,
            last: 0,
            length: 0,
        },
        owner: 0,
        place: 0,
    }
}

// The search in a plan without a cycle, if there are no more blocks than `room`.
fn counted(
    asked: Asked,
    spans: &[u64],
    starts: &[u64],
    top: u64,
    n: usize,
    room: usize,
) -> Result<Found, Refusal>
    requires { (n ≤ length spans.now) × (n ≤ length starts.now) × (n ≤ most_jobs) }
    ensures { Counts asked.entry.edges.now spans.now starts.now top n asked.entry.routes.now asked.entry.all
        asked.entry.owners.now room result }
{
    let mut crit = [0u8; Plan::JOBS];
    critical(asked.edges, spans, starts, top, n, &mut crit);
    let sight = Sight {
        spans,
        starts,
        crit: &crit,
        n,
    };
    let count = asked.count(sight, room)?;
    Ok(Found {
        crit,
        spot: outset(),
        count,
    })
}

// The search for a list of owners' blocks, in a list that has `room` places.
pub fn search(store: Store, owners: &[u32], room: usize) -> Result<Found, Refusal>
    ensures { SearchPromise owners.now room (held store.entry) result }
{
    let plan = store.plan()?;
    if is_cyclic(store.times) {
        return Ok(Found {
            crit: [0u8; Plan::JOBS],
            spot: outset(),
            count: 0,
        });
    }
    let asked = Asked {
        edges: &store.edges[..Plan::EDGES],
        routes: &store.routes[..Plan::ROUTES],
        all: plan.owners,
        owners,
    };
    counted(
        asked,
        &store.spans[..Plan::SPANS],
        times::starts(store.times),
        makespan(store.times),
        plan.jobs as usize,
        room,
    )
}

// The next block of a search.
pub fn next(store: Store, owners: &[u32], found: Found, at: Spot) -> Spot
    ensures { NextPromise owners.now (held store.entry) found at result }
{
    let Ok(plan) = store.plan() else {
        return outset();
    };
    let sight = Sight {
        spans: &store.spans[..Plan::SPANS],
        starts: times::starts(store.times),
        crit: &found.crit,
        n: plan.jobs as usize,
    };
    let asked = Asked {
        edges: &store.edges[..Plan::EDGES],
        routes: &store.routes[..Plan::ROUTES],
        all: plan.owners,
        owners,
    };
    asked.step(sight, at)
}

// A record is written.
fn put_block(out: &mut [Block], at: usize, b: Block)
    requires { at < length out.old }
    ensures { out.new ≡ slice_set out.old at b }
{
    out[at] = b;
}

// The blocks of a list of owners, as records in the answer buffer.
pub fn blocks(store: Store, owners: &[u32], out: &mut [Block]) -> Result<usize, Refusal>
    ensures { BlocksPromise owners.now
        (held store.entry) (held store.entry)
        out.old out.new (says_blocked out.new result) }
{
    let found = search(store, owners, out.len())?;
    let mut at = found.spot;
    for i in 0..found.count {
        at = next(store, owners, found, at);
        put_block(out, i, at.block);
    }
    Ok(found.count)
}

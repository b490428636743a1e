// The calls of layer 3. Each hands everything on, and tells what is answered in numbers.
ghost use Rattle.std.specs.Prelude.{[], length};
ghost use Rattle.rules.specs.Calls.{to_load, to_reset, to_retract, to_put, to_score, to_verdict, to_starts};
ghost use Rattle.refresh.specs.Loads.{loading};
ghost use Rattle.stores.specs.Promise.{slices};
ghost use Rattle.capi.specs.Numbers.{Answers};

use crate::numbers::{NUMS, TOLD, changed, counted, ended, judged, listed, scored};
use refresh::load::{Loading, load};
use refresh::put::put;
use refresh::reported::starts;
use refresh::reset::reset;
use refresh::retract::retract;
use refresh::score::score;
use refresh::store::Store;
use refresh::verdict::verdict;
use rules::Owner;

// A plan, in place of what the store held.
#[unsafe(no_mangle)]
pub extern "C" fn notekarip_load(
    base: &mut [u32],
    spans: &mut [u64],
    edges: &mut [u16],
    routes: &mut [u16],
    times: &mut [u64],
    jobs: u32,
    owners: u32,
    durations: &[u64],
    expected: &[u32],
    from: &[u32],
    to: &[u32],
    nums: &mut [i64; NUMS],
) -> u32
    ensures { Answers (to_load (loading jobs owners durations.now expected.now from.now to.now))
        (slices base.old spans.old edges.old routes.old times.old)
        (slices base.new spans.new edges.new routes.new times.new)
        [] [] nums.old nums.new [] [] result }
{
    let what = Loading {
        jobs,
        owners,
        durations,
        expected,
        from,
        to,
    };
    scored(load(base, spans, edges, routes, times, what), nums)
}

// The store is not loaded any more.
#[unsafe(no_mangle)]
pub extern "C" fn notekarip_reset(
    base: &mut [u32],
    spans: &[u64],
    edges: &[u16],
    routes: &[u16],
    times: &[u64],
    nums: &mut [i64; NUMS],
) -> u32
    ensures { Answers to_reset
        (slices base.old spans.now edges.now routes.now times.now)
        (slices base.new spans.now edges.now routes.now times.now)
        [] [] nums.old nums.new [] [] result }
{
    ended(reset(base, spans, edges, routes, times), nums)
}

// An owner waits.
#[unsafe(no_mangle)]
pub extern "C" fn notekarip_retract(
    base: &[u32],
    spans: &[u64],
    edges: &[u16],
    routes: &mut [u16],
    times: &[u64],
    owner: u32,
    nums: &mut [i64; NUMS],
) -> u32
    ensures { Answers (to_retract owner)
        (slices base.now spans.now edges.now routes.old times.now)
        (slices base.now spans.now edges.now routes.new times.now)
        [] [] nums.old nums.new [] [] result }
{
    ended(
        retract(base, spans, edges, routes, times, Owner(owner)),
        nums,
    )
}

// An owner's route, in place of the one in force.
#[unsafe(no_mangle)]
pub extern "C" fn notekarip_put(
    base: &[u32],
    spans: &[u64],
    edges: &mut [u16],
    routes: &mut [u16],
    times: &mut [u64],
    owner: u32,
    entries: &[u32],
    nums: &mut [i64; NUMS],
    told: &mut [u64; TOLD],
) -> u32
    ensures { Answers (to_put owner entries.now)
        (slices base.now spans.now edges.old routes.old times.old)
        (slices base.now spans.now edges.new routes.new times.new)
        [] [] nums.old nums.new told.old told.new result }
{
    changed(
        put(base, spans, edges, routes, times, Owner(owner), entries),
        nums,
        told,
    )
}

// Score and match count.
#[unsafe(no_mangle)]
pub extern "C" fn notekarip_score(
    base: &[u32],
    spans: &[u64],
    edges: &[u16],
    routes: &[u16],
    times: &[u64],
    nums: &mut [i64; NUMS],
    told: &mut [u64; TOLD],
) -> u32
    ensures { Answers to_score
        (slices base.now spans.now edges.now routes.now times.now)
        (slices base.now spans.now edges.now routes.now times.now)
        [] [] nums.old nums.new told.old told.new result }
{
    let store = Store {
        base,
        spans,
        edges,
        routes,
        times,
    };
    counted(score(store), nums, told)
}

// The shown line-up, or the shown cycle.
#[unsafe(no_mangle)]
pub extern "C" fn notekarip_verdict(
    base: &[u32],
    spans: &[u64],
    edges: &[u16],
    routes: &[u16],
    times: &[u64],
    out: &mut [u32],
    told: &mut [u64; TOLD],
) -> u32
    ensures { Answers (to_verdict (length out.old))
        (slices base.now spans.now edges.now routes.now times.now)
        (slices base.now spans.now edges.now routes.now times.now)
        out.old out.new [] [] told.old told.new result }
{
    let store = Store {
        base,
        spans,
        edges,
        routes,
        times,
    };
    judged(verdict(store, out), told)
}

// The starts.
#[unsafe(no_mangle)]
pub extern "C" fn notekarip_starts(
    base: &[u32],
    spans: &[u64],
    edges: &[u16],
    routes: &[u16],
    times: &[u64],
    out: &mut [u64],
    told: &mut [u64; TOLD],
) -> u32
    ensures { Answers (to_starts (length out.old))
        (slices base.now spans.now edges.now routes.now times.now)
        (slices base.now spans.now edges.now routes.now times.now)
        out.old out.new [] [] told.old told.new result }
{
    let store = Store {
        base,
        spans,
        edges,
        routes,
        times,
    };
    listed(starts(store, out), told)
}

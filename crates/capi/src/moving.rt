// The moves of layer 4: the new route into `out`, both verdicts and the route's length into `told`.
ghost use Rattle.std.specs.Prelude.{[], length};
ghost use Rattle.rules.specs.Calls.{to_move};
ghost use Rattle.rules.specs.Moves.{list_change, sublist_change, sublist_swap, permutation as permuted};
ghost use Rattle.stores.specs.Promise.{slices};
ghost use Rattle.capi.specs.Numbers.{Answers};

use crate::numbers::{TOLD, moved};
use moves::moved::{list_change, permutation, sublist_change, sublist_swap};
use refresh::store::Store;
use rules::Owner;

// A job to another place of its route.
#[unsafe(no_mangle)]
pub extern "C" fn notekarip_list_change(
    base: &[u32],
    spans: &[u64],
    edges: &[u16],
    routes: &[u16],
    times: &[u64],
    owner: u32,
    source: u32,
    dest: u32,
    out: &mut [u32],
    told: &mut [u64; TOLD],
) -> u32
    ensures { Answers (to_move owner (list_change source dest) (length out.old))
        (slices base.now spans.now edges.now routes.now times.now)
        (slices base.now spans.now edges.now routes.now times.now)
        out.old out.new [] [] told.old told.new result }
{
    let store = Store {
        base,
        spans,
        edges,
        routes,
        times,
    };
    moved(list_change(store, Owner(owner), source, dest, out), told)
}

// A part of a route to another place.
#[unsafe(no_mangle)]
pub extern "C" fn notekarip_sublist_change(
    base: &[u32],
    spans: &[u64],
    edges: &[u16],
    routes: &[u16],
    times: &[u64],
    owner: u32,
    start: u32,
    end: u32,
    dest: u32,
    out: &mut [u32],
    told: &mut [u64; TOLD],
) -> u32
    ensures { Answers (to_move owner (sublist_change start end dest) (length out.old))
        (slices base.now spans.now edges.now routes.now times.now)
        (slices base.now spans.now edges.now routes.now times.now)
        out.old out.new [] [] told.old told.new result }
{
    let store = Store {
        base,
        spans,
        edges,
        routes,
        times,
    };
    moved(
        sublist_change(store, Owner(owner), start, end, dest, out),
        told,
    )
}

// Two parts of a route change places.
#[unsafe(no_mangle)]
pub extern "C" fn notekarip_sublist_swap(
    base: &[u32],
    spans: &[u64],
    edges: &[u16],
    routes: &[u16],
    times: &[u64],
    owner: u32,
    a: u32,
    b: u32,
    c: u32,
    d: u32,
    out: &mut [u32],
    told: &mut [u64; TOLD],
) -> u32
    ensures { Answers (to_move owner (sublist_swap a b c d) (length out.old))
        (slices base.now spans.now edges.now routes.now times.now)
        (slices base.now spans.now edges.now routes.now times.now)
        out.old out.new [] [] told.old told.new result }
{
    let store = Store {
        base,
        spans,
        edges,
        routes,
        times,
    };
    moved(sublist_swap(store, Owner(owner), a, b, c, d, out), told)
}

// A part of a route in another order.
#[unsafe(no_mangle)]
pub extern "C" fn notekarip_permutation(
    base: &[u32],
    spans: &[u64],
    edges: &[u16],
    routes: &[u16],
    times: &[u64],
    owner: u32,
    start: u32,
    end: u32,
    list: &[u32],
    out: &mut [u32],
    told: &mut [u64; TOLD],
) -> u32
    ensures { Answers (to_move owner (permuted start end list.now) (length out.old))
        (slices base.now spans.now edges.now routes.now times.now)
        (slices base.now spans.now edges.now routes.now times.now)
        out.old out.new [] [] told.old told.new result }
{
    let store = Store {
        base,
        spans,
        edges,
        routes,
        times,
    };
    moved(
        permutation(store, Owner(owner), start, end, list, out),
        told,
    )
}

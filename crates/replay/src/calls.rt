// The calls but for the moves. Each takes its arguments from a row of numbers and writes its answer as numbers, unless it is refused.
// Five slices, not one struct, go to a call that writes: the proof rules do not cover a struct of `&mut [T]` that is passed on.
use crate::answers::{block, changed, counted, judged, ok, started, word};
use crate::lists::{Args, LIST, Numbers};
use blocks::blocks::{next, search};
use refresh::load::Loading;
use refresh::store::Store;
use rules::{Owner, Plan, Refusal, Score};

// Jobs, owners, and four lists: durations, expected owners, from, to.
pub(crate) fn load(
    base: &mut [u32],
    spans: &mut [u64],
    edges: &mut [u16],
    routes: &mut [u16],
    times: &mut [u64],
    args: &mut Args,
    out: &mut Numbers,
) -> Result<(), Refusal> {
    let mut durations = [0u64; LIST];
    let mut expected = [0u32; LIST];
    let mut from = [0u32; LIST];
    let mut to = [0u32; LIST];
    let jobs = args.number();
    let owners = args.number();
    let d = args.list(&mut durations);
    let x = args.list(&mut expected);
    let f = args.list(&mut from);
    let t = args.list(&mut to);
    let what = Loading {
        jobs,
        owners,
        durations: &durations[..d],
        expected: &expected[..x],
        from: &from[..f],
        to: &to[..t],
    };
    let score = refresh::load::load(base, spans, edges, routes, times, what)?;
    ok(out, score);
    Ok(())
}

fn ended(out: &mut Numbers) -> Result<(), Refusal> {
    ok(out, Score { hard: 0, soft: 0 });
    Ok(())
}

pub(crate) fn reset(
    base: &mut [u32],
    spans: &[u64],
    edges: &[u16],
    routes: &[u16],
    times: &[u64],
    out: &mut Numbers,
) -> Result<(), Refusal> {
    refresh::reset::reset(base, spans, edges, routes, times)?;
    ended(out)
}

pub(crate) fn retract(
    base: &[u32],
    spans: &[u64],
    edges: &[u16],
    routes: &mut [u16],
    times: &[u64],
    args: &mut Args,
    out: &mut Numbers,
) -> Result<(), Refusal> {
    let owner = Owner(args.number());
    refresh::retract::retract(base, spans, edges, routes, times, owner)?;
    ended(out)
}

pub(crate) fn put(
    base: &[u32],
    spans: &[u64],
    edges: &mut [u16],
    routes: &mut [u16],
    times: &mut [u64],
    args: &mut Args,
    out: &mut Numbers,
) -> Result<(), Refusal> {
    let mut list = [0u32; LIST];
    let owner = Owner(args.number());
    let n = args.list(&mut list);
    let change = refresh::put::put(base, spans, edges, routes, times, owner, &list[..n])?;
    changed(out, change);
    Ok(())
}

pub(crate) fn score(store: Store, out: &mut Numbers) -> Result<(), Refusal> {
    let (score, matches) = refresh::score::score(store)?;
    counted(out, score, matches);
    Ok(())
}

pub(crate) fn verdict(store: Store, args: &mut Args, out: &mut Numbers) -> Result<(), Refusal> {
    let mut jobs = [0u32; Plan::ENTRIES];
    let room = args.room();
    let shown = refresh::verdict::verdict(store, &mut jobs[..room])?;
    judged(out, shown, &jobs);
    Ok(())
}

pub(crate) fn starts(store: Store, args: &mut Args, out: &mut Numbers) -> Result<(), Refusal> {
    let mut list = [0u64; Plan::ENTRIES];
    let room = args.room();
    let k = refresh::reported::starts(store, &mut list[..room])?;
    started(out, &list, k);
    Ok(())
}

// The blocks are found one after the other.
pub(crate) fn blocks(store: Store, args: &mut Args, out: &mut Numbers) -> Result<(), Refusal> {
    let mut list = [0u32; LIST];
    let room = args.room();
    let n = args.list(&mut list);
    let owners = &list[..n];
    let found = search(store, owners, room)?;
    word(out, b"bl");
    out.count(found.count as u64);
    let mut at = found.spot;
    for _ in 0..found.count {
        at = next(store, owners, found, at);
        block(out, at.block);
    }
    Ok(())
}

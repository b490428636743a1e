// The four moves: owner, positions, room for the new route, and a permutation's list. Each is a call of its own, with other positions.
use crate::answers::moved;
use crate::lists::{Args, LIST, Numbers};
use moves::moved::{list_change, permutation, sublist_change, sublist_swap};
use refresh::store::Store;
use rules::{Owner, Plan, Refusal};

pub(crate) fn change(store: Store, args: &mut Args, out: &mut Numbers) -> Result<(), Refusal> {
    let mut route = [0u32; Plan::ENTRIES];
    let owner = Owner(args.number());
    let a = args.number();
    let b = args.number();
    let room = args.room();
    let m = list_change(store, owner, a, b, &mut route[..room])?;
    moved(out, m, &route);
    Ok(())
}

pub(crate) fn sublist(store: Store, args: &mut Args, out: &mut Numbers) -> Result<(), Refusal> {
    let mut route = [0u32; Plan::ENTRIES];
    let owner = Owner(args.number());
    let a = args.number();
    let b = args.number();
    let d = args.number();
    let room = args.room();
    let m = sublist_change(store, owner, a, b, d, &mut route[..room])?;
    moved(out, m, &route);
    Ok(())
}

pub(crate) fn swap(store: Store, args: &mut Args, out: &mut Numbers) -> Result<(), Refusal> {
    let mut route = [0u32; Plan::ENTRIES];
    let owner = Owner(args.number());
    let a = args.number();
    let b = args.number();
    let d = args.number();
    let e = args.number();
    let room = args.room();
    let m = sublist_swap(store, owner, a, b, d, e, &mut route[..room])?;
    moved(out, m, &route);
    Ok(())
}

pub(crate) fn permute(store: Store, args: &mut Args, out: &mut Numbers) -> Result<(), Refusal> {
    let mut route = [0u32; Plan::ENTRIES];
    let mut by = [0u32; LIST];
    let owner = Owner(args.number());
    let a = args.number();
    let b = args.number();
    let room = args.room();
    let n = args.list(&mut by);
    let m = permutation(store, owner, a, b, &by[..n], &mut route[..room])?;
    moved(out, m, &route);
    Ok(())
}

// The four moves: the new route into the answer buffer, and both verdicts. The store is only read.
ghost use Rattle.std.specs.Prelude.{◌≡◌, ◌≤◌, length};
ghost use Rattle.rules.specs.Calls.{to_move};
ghost use Rattle.rules.specs.Moves.{list_change, sublist_change, sublist_swap, permutation as permuted};
ghost use Rattle.rules.specs.Sizes.{most_entries};
ghost use Rattle.stores.specs.Headers.{Opened};
ghost use Rattle.stores.specs.Held.{held};
ghost use Rattle.stores.specs.Promise.{Promise, lent_of};
ghost use Rattle.moves.specs.Calls.{Begins, Finishes, Judges, Places, move_of, says_moved};

use crate::places::{place_one, place_order, place_range, place_swap};
use crate::stops::{are_jobs, route_of};
use probes::checks::check;
use rules::{Owner, Plan, Refusal};
use stores::base::{froms, tos};
use stores::store::Store;
use times::is_cyclic;
use words::widen;

// What a move tells; the new route itself is in the answer.
#[derive(Clone, Copy)]
pub struct Moved {
    // How many jobs the new route has.
    pub length: usize,
    pub quick: bool,
    pub full: bool,
}

// What every move asks first: slices, store, owner, an unbroken route. The counts of the plan, and how many jobs the route has.
fn begin(store: Store, owner: Owner, old: &mut [u16]) -> Result<(Plan, usize), Refusal>
    requires { length old.old ≡ most_entries }
    ensures { Begins (held store.entry) owner.0 old.new result }
{
    let plan = store.plan()?;
    if !plan.has_owner(owner) {
        return Err(Refusal::NoSuchOwner);
    }
    let len = route_of(&store.routes[..Plan::ROUTES], owner, old)?;
    Ok((plan, len))
}

// The verdicts on the new route, and the route into the answer.
fn judge(
    store: Store,
    plan: Plan,
    old: &[u16],
    new: &[u16],
    out: &mut [u32],
) -> Result<Moved, Refusal>
    requires { Opened (lent_of (held store)) plan × (length old.now ≤ most_entries) × (length new.now ≤ most_entries)
        × (length new.now ≤ length out.old) }
    ensures { Judges (held store.entry) plan old.now new.now
        out.old result out.new }
{
    let n = plan.jobs as usize;
    let k = plan.fixed as usize;
    if !are_jobs(old, n) {
        return Err(Refusal::BadStore);
    }
    if !are_jobs(new, n) {
        return Err(Refusal::BadStore);
    }
    let verdicts = check(
        froms(store.base, k),
        tos(store.base, k),
        &store.edges[..Plan::EDGES],
        old,
        new,
        n,
        is_cyclic(store.times),
    );
    widen(out, 0, new);
    Ok(Moved {
        length: new.len(),
        quick: verdicts.quick,
        full: verdicts.full,
    })
}

// The same, if the answer has room.
#[tactic(auto, using(crate::proofs::Promised::finish_few, crate::proofs::Promised::finish_judged))]
fn finish(
    store: Store,
    plan: Plan,
    old: &[u16],
    new: &[u16],
    out: &mut [u32],
) -> Result<Moved, Refusal>
    requires { Opened (lent_of (held store)) plan × (length old.now ≤ most_entries) × (length new.now ≤ most_entries) }
    ensures { Finishes (held store.entry) plan old.now new.now
        out.old result out.new }
{
    if out.len() < new.len() {
        return Err(Refusal::ShortAnswer);
    }
    judge(store, plan, old, new, out)
}

// A move, as it is asked for.
#[derive(Clone, Copy)]
enum Asked<'a> {
    One(u32, u32),
    Range(u32, u32, u32),
    Swap(u32, u32, u32, u32),
    Order(u32, u32, &'a [u32]),
}

// Whether the positions are good, and if they are the new route.
// A switch: in its place a closure would need clauses of its own, on the rows that it may be lent and on what it writes.
fn place(asked: Asked, old: &[u16], new: &mut [u16]) -> bool
    requires { (length new.old ≡ length old.now) × (length old.now ≤ most_entries) }
    ensures { Places (move_of asked.entry) old.now result new.new }
{
    match asked {
        Asked::One(source, dest) => place_one(old, source, dest, new),
        Asked::Range(start, end, dest) => place_range(old, start, end, dest, new),
        Asked::Swap(a, b, c, d) => place_swap(old, a, b, c, d, new),
        Asked::Order(start, end, list) => place_order(old, start, end, list, new),
    }
}

// What every move does.
fn answer(store: Store, owner: Owner, asked: Asked, out: &mut [u32]) -> Result<Moved, Refusal>
    ensures { Promise (to_move owner.0 (move_of asked.entry) (length out.old)) (held store.entry) (held store.entry)
        out.old out.new (says_moved out.new result) }
{
    let mut old = [0u16; Plan::ENTRIES];
    let mut new = [0u16; Plan::ENTRIES];
    let (plan, len) = begin(store, owner, &mut old)?;
    let old = &old[..len];
    let new = &mut new[..len];
    if !place(asked, old, new) {
        return Err(Refusal::BadPositions);
    }
    finish(store, plan, old, new, out)
}

// Four calls, as there are four moves; what they share is `answer`.

// A job goes to another place of its route.
pub fn list_change(
    store: Store,
    owner: Owner,
    source: u32,
    dest: u32,
    out: &mut [u32],
) -> Result<Moved, Refusal>
    ensures { Promise (to_move owner.0 (list_change source dest) (length out.old)) (held store.entry) (held store.entry)
        out.old out.new (says_moved out.new result) }
{
    answer(store, owner, Asked::One(source, dest), out)
}

// A part of a route goes to another place.
pub fn sublist_change(
    store: Store,
    owner: Owner,
    start: u32,
    end: u32,
    dest: u32,
    out: &mut [u32],
) -> Result<Moved, Refusal>
    ensures { Promise (to_move owner.0 (sublist_change start end dest) (length out.old)) (held store.entry) (held store.entry)
        out.old out.new (says_moved out.new result) }
{
    answer(store, owner, Asked::Range(start, end, dest), out)
}

// Two parts of a route change places.
pub fn sublist_swap(
    store: Store,
    owner: Owner,
    a: u32,
    b: u32,
    c: u32,
    d: u32,
    out: &mut [u32],
) -> Result<Moved, Refusal>
    ensures { Promise (to_move owner.0 (sublist_swap a b c d) (length out.old)) (held store.entry) (held store.entry)
        out.old out.new (says_moved out.new result) }
{
    answer(store, owner, Asked::Swap(a, b, c, d), out)
}

// A part of a route in another order.
pub fn permutation(
    store: Store,
    owner: Owner,
    start: u32,
    end: u32,
    list: &[u32],
    out: &mut [u32],
) -> Result<Moved, Refusal>
    ensures { Promise (to_move owner.0 (permuted start end list.now) (length out.old)) (held store.entry) (held store.entry)
        out.old out.new (says_moved out.new result) }
{
    answer(store, owner, Asked::Order(start, end, list), out)
}

// An old route's edges give way to a new route's, through the edges' counts.
ghost use Rattle.std.specs.Prelude.{◌≡◌, ◌+◌, ◌≤◌, length};
ghost use Rattle.rules.specs.Sizes.{most_entries, edges_length};
ghost use Rattle.routes.specs.Turning.{Turned, Turns, Parts};
ghost use Rattle.routes.specs.Promises.{EdgesTurn};

use crate::difference::{JOBS, differences, links_of, same_back, same_front};
use edges::{Added, Removed};
use rules::{Job, Plan, Senseless};

// One edge more or less, and whether it appears or vanishes. A number that is no edge is passed over.
// `more` is a flag, not a closure: what comes and what goes are two cases of each definition that the promise cites.
fn turn(e: &mut [u16], x: u32, more: bool) -> Result<bool, Senseless>
    requires { length e.old ≡ edges_length }
    ensures { Turned more x e.old e.new result }
{
    let from = x / JOBS;
    let to = x % JOBS;
    if JOBS <= from {
        return Ok(false);
    }
    if more {
        return Ok(matches!(edges::add(e, Job(from), Job(to))?, Added::Appeared));
    }
    Ok(matches!(edges::remove(e, Job(from), Job(to))?, Removed::Vanished))
}

// The edges s, one after the other. The heads of those that appear or vanish are listed in `heads`; the answer is how many.
fn turn_all(e: &mut [u16], s: &[u32], more: bool, heads: &mut [u16]) -> Result<usize, Senseless>
    requires { (length e.old ≡ edges_length) × (length s.now ≤ length heads.old) }
    ensures { Turns more s.now e.old e.new heads.new result }
{
    let mut n = 0;
    for &x in s {
        if turn(e, x, more)? {
            heads[n] = (x % JOBS) as u16;
            n += 1;
        }
    }
    Ok(n)
}

// The edges of old that have no equal one in new vanish, then those of new appear that have none in old. The answer is how many heads
// are listed of those that vanished, and of those that appeared.
fn exchange_part(
    e: &mut [u16],
    old: &mut [u32],
    new: &mut [u32],
    went: &mut [u16],
    came: &mut [u16],
) -> Result<(usize, usize), Senseless>
    requires { (length e.old ≡ edges_length) × (length old.old ≤ length went.old) × (length new.old ≤ length came.old) }
    ensures { Parts old.old new.old e.old e.new went.new came.new result }
{
    let g = differences(old, new);
    let h = turn_all(e, &old[..g], false, went)?;
    let c = turn_all(e, &new[..], true, came)?;
    Ok((h, c))
}

// The same, front and back aside that the two share.
fn exchange_links(
    e: &mut [u16],
    old: &mut [u32],
    new: &mut [u32],
    went: &mut [u16],
    came: &mut [u16],
) -> Result<(usize, usize), Senseless>
    requires { (length e.old ≡ edges_length) × (length old.old ≤ length went.old) × (length new.old ≤ length came.old) }
    ensures { Parts old.old new.old e.old e.new went.new came.new result }
{
    let f = same_front(&old[..], &new[..]);
    let b = same_back(&old[f..], &new[f..]);
    let i = old.len() - b;
    let j = new.len() - b;
    exchange_part(e, &mut old[f..i], &mut new[f..j], went, came)
}

// The edges of the stops `old` give way to those of `new`: vanishing edges before appearing ones, each by its first place. The heads of
// those that vanish are listed in `went`, of those that appear in `came`; the answer is how many of both.
pub fn exchange(
    e: &mut [u16],
    old: &[u16],
    new: &[u16],
    went: &mut [u16],
    came: &mut [u16],
) -> Result<(usize, usize), Senseless>
    requires sizes { (length e.old ≡ edges_length) × (length old.now ≤ most_entries) × (length new.now ≤ most_entries) }
    requires room { length new.now ≤ length came.old }
    ensures { EdgesTurn old.now new.now e.old e.new went.old went.new came.new result }
{
    if went.len() < old.len() {
        return Err(Senseless);
    }
    let mut a = [0u32; Plan::ENTRIES];
    let mut b = [0u32; Plan::ENTRIES];
    let n = links_of(old, &mut a);
    let k = links_of(new, &mut b);
    exchange_links(e, &mut a[..n], &mut b[..k], went, came)
}

// What a move turns off, and what it adds that is not live yet. Two loops of one shape: what they do at an edge is asked of other sets.
#![tactic(auto, using(crate::proofs::Turning::turning))]

ghost use Rattle.std.specs.Prelude.{◌≡◌, ◌+◌, ◌-◌, ◌<◌, ◌≤◌, true, [], ◌∷◌, length};
ghost use Rattle.rules.specs.Lists.{all_below};
ghost use Rattle.rules.specs.Moves.{neighbours};
ghost use Rattle.rules.specs.Sizes.{edges_length, most_entries, most_jobs};
ghost use Rattle.probes.specs.Chains.{Falls, Links};
ghost use Rattle.probes.specs.Gathered.{goes_off, comes_on};

use crate::chain::Chain;
use crate::fixed::is_fixed;
use edges::lists::successors;

// An old edge, at place k, is off if it occurs nowhere among the new and is not fixed.
fn turn_off(from: &[u32], to: &[u32], new: &Chain, off: &mut Chain, k: usize, u: u16, v: u16)
    requires { (length from.now ≡ length to.now) × Falls most_entries new.now × Falls k off.old × (k < most_entries) × (u < most_jobs) }
    ensures { Links (goes_off from.now to.now new.now) ((u, v) ∷ []) (k + 1)
        off.old off.new }
{
    if new.holds(u, v) {
        return;
    }
    if is_fixed(from, to, u32::from(u), u32::from(v)) {
        return;
    }
    off.link(k, u, v);
}

// Of the edges between old neighbours those that are off.
#[tactic(auto, using(crate::proofs::Chaining::linking))]
pub fn turned_off(from: &[u32], to: &[u32], old: &[u16], new: &Chain, off: &mut Chain)
    requires { (length from.now ≡ length to.now) × (length old.now ≤ most_entries) × (all_below most_jobs old.now ≡ true)
        × Falls most_entries new.now × Falls 0 off.old }
    ensures { Links (goes_off from.now to.now new.now) (neighbours old.now) most_entries
        off.old off.new }
{
    for i in 1..old.len() {
        turn_off(from, to, new, off, i - 1, old[i - 1], old[i]);
    }
}

// A new edge, at place k, comes on if it occurs nowhere among the old, was not met before, and is not live.
fn turn_on(e: &[u16], old: &Chain, plus: &mut Chain, k: usize, u: u16, v: u16)
    requires { (length e.now ≡ edges_length) × Falls most_entries old.now × Falls k plus.old × (k < most_entries) × (u < most_jobs) }
    ensures { Links (comes_on e.now old.now) ((u, v) ∷ []) (k + 1) plus.old plus.new }
{
    if old.holds(u, v) {
        return;
    }
    if plus.holds(u, v) {
        return;
    }
    if successors(e, usize::from(u)).contains(&v) {
        return;
    }
    plus.link(k, u, v);
}

// Of the edges between new neighbours those that come on, each once.
#[tactic(auto, using(crate::proofs::Chaining::linking))]
pub fn turned_on(e: &[u16], old: &Chain, new: &[u16], plus: &mut Chain)
    requires { (length e.now ≡ edges_length) × (length new.now ≤ most_entries) × (all_below most_jobs new.now ≡ true)
        × Falls most_entries old.now × Falls 0 plus.old }
    ensures { Links (comes_on e.now old.now) (neighbours new.now) most_entries
        plus.old plus.new }
{
    for i in 1..new.len() {
        turn_on(e, old, plus, i - 1, new[i - 1], new[i]);
    }
}

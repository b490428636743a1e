// Whether a move's positions are good, and where they are the new route.
ghost use Rattle.std.specs.Prelude.{◌≡◌, ◌≤◌, length};
ghost use Rattle.rules.specs.Moves.{list_change, sublist_change, sublist_swap, permutation as permuted};
ghost use Rattle.rules.specs.Sizes.{most_entries};
ghost use Rattle.moves.specs.Calls.{Places};

use crate::reroute;

// Each place_.. says whether the positions are good, and if they are writes the new route.
#[tactic(auto, using(crate::proofs::Positions::change_order, crate::proofs::Positions::change_far, crate::proofs::Positions::change_dest, crate::proofs::Positions::change_made))]
pub fn place_range(old: &[u16], start: u32, end: u32, dest: u32, new: &mut [u16]) -> bool
    requires { length new.old ≡ length old.now }
    ensures { Places (sublist_change start end dest) old.now result new.new }
{
    let a = start as usize;
    let b = end as usize;
    let d = dest as usize;
    if b < a {
        return false;
    }
    if old.len() < b {
        return false;
    }
    if old.len() - (b - a) < d {
        return false;
    }
    reroute::sublist_change(old, a, b, d, new);
    true
}

#[tactic(auto, using(crate::proofs::Positions::one_far, crate::proofs::Positions::one_dest))]
pub fn place_one(old: &[u16], source: u32, dest: u32, new: &mut [u16]) -> bool
    requires { length new.old ≡ length old.now }
    ensures { Places (list_change source dest) old.now result new.new }
{
    let s = source as usize;
    let d = dest as usize;
    if old.len() <= s {
        return false;
    }
    if old.len() < d {
        return false;
    }
    if s < d {
        reroute::sublist_change(old, s, s + 1, d - 1, new);
        return true;
    }
    reroute::sublist_change(old, s, s + 1, d, new);
    true
}

// The range from a on is the left one.
#[tactic(auto, using(crate::proofs::Positions::swap_first, crate::proofs::Positions::swap_second, crate::proofs::Positions::swap_overlap, crate::proofs::Positions::swap_far, crate::proofs::Positions::swap_made))]
fn place_ranges(old: &[u16], a: u32, b: u32, c: u32, d: u32, new: &mut [u16]) -> bool
    requires { (length new.old ≡ length old.now) × (a ≤ c) }
    ensures { Places (sublist_swap a b c d) old.now result new.new }
{
    let f = a as usize;
    let g = b as usize;
    let h = c as usize;
    let k = d as usize;
    if g < f {
        return false;
    }
    if k < h {
        return false;
    }
    if h < g {
        return false;
    }
    if old.len() < k {
        return false;
    }
    reroute::sublist_swap(old, f, g, h, k, new);
    true
}

pub fn place_swap(old: &[u16], a: u32, b: u32, c: u32, d: u32, new: &mut [u16]) -> bool
    requires { length new.old ≡ length old.now }
    ensures { Places (sublist_swap a b c d) old.now result new.new }
{
    if a <= c {
        return place_ranges(old, a, b, c, d, new);
    }
    place_ranges(old, c, d, a, b, new)
}

#[tactic(auto, using(crate::proofs::Positions::order_list, crate::proofs::Positions::order_order, crate::proofs::Positions::order_far, crate::proofs::Positions::order_not, crate::proofs::Positions::order_made))]
pub fn place_order(old: &[u16], start: u32, end: u32, list: &[u32], new: &mut [u16]) -> bool
    requires { (length new.old ≡ length old.now) × (length old.now ≤ most_entries) }
    ensures { Places (permuted start end list.now) old.now result new.new }
{
    let a = start as usize;
    let b = end as usize;
    if b < a {
        return false;
    }
    if old.len() < b {
        return false;
    }
    if !reroute::is_permutation(list, b - a) {
        return false;
    }
    reroute::permutation(old, a, b, list, new);
    true
}

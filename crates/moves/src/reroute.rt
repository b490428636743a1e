// The new route of each move, written place by place.
ghost use Rattle.std.specs.Prelude.{◌≡◌, ◌&&◌, true, map, ◌+◌, ◌-◌, ◌≤◌, eqb, length, get_or};
ghost use Rattle.std.proofs.lemmas.List.Edits.{sets};
ghost use Rattle.rules.specs.Lists.{all_below, distinct};
ghost use Rattle.rules.specs.Moves.{moved, sublist_change, sublist_swap, permutation as permuted};
ghost use Rattle.rules.specs.Sizes.{most_entries};
ghost use Rattle.moves.specs.Pieces.{Order, Piece, Ranges};

use rules::Plan;
use words::copy_to;

// Places a up to b and c up to d change places.
pub fn sublist_swap(old: &[u16], a: usize, b: usize, c: usize, d: usize, new: &mut [u16])
    requires { Ranges a b c d old.now new.old }
    ensures { new.new ≡ moved (sublist_swap a b c d) old.now }
{
    copy_to(new, 0, &old[..a]);
    copy_to(new, a, &old[c..d]);
    copy_to(new, a + (d - c), &old[b..c]);
    copy_to(new, a + (d - b), &old[a..b]);
    copy_to(new, d, &old[d..]);
}

// Places a up to b go to dest, which counts after removal: two neighbouring ranges change places.
#[tactic(auto, using(crate::proofs::Laid::back_laid, crate::proofs::Laid::on_laid))]
pub fn sublist_change(old: &[u16], a: usize, b: usize, dest: usize, new: &mut [u16])
    requires { Piece a b old.now new.old × (dest ≤ length old.now - (b - a)) }
    ensures { new.new ≡ moved (sublist_change a b dest) old.now }
{
    if dest <= a {
        sublist_swap(old, dest, a, a, b, new);
    } else {
        sublist_swap(old, a, b, b, b + (dest - a), new);
    }
}

// The places from a on are filled in the order of the list.
#[tactic(auto, using(crate::proofs::Laid::fill_start, crate::proofs::Laid::fill_next, crate::proofs::Laid::fill_end))]
fn permute(old: &[u16], a: usize, list: &[u32], new: &mut [u16])
    requires { Order a list.now old.now new.old }
    ensures { new.new ≡ sets new.old a (map (λ i. get_or old.now (a + i) 0) list.now) }
{
    for (i, number) in list.iter().enumerate() {
        new[a + i] = old[a + *number as usize];
    }
}

pub fn permutation(old: &[u16], a: usize, b: usize, list: &[u32], new: &mut [u16])
    requires { Piece a b old.now new.old × (length list.now ≡ b - a) × (all_below (b - a) list.now ≡ true) }
    ensures { new.new ≡ moved (permuted a b list.now) old.now }
{
    copy_to(new, 0, &old[..a]);
    permute(old, a, list, new);
    copy_to(new, b, &old[b..]);
}

// The list holds each number below k once.
#[tactic(auto, using(crate::proofs::Listed::tested_short, crate::proofs::Listed::tested_start, crate::proofs::Listed::tested_far, crate::proofs::Listed::tested_seen, crate::proofs::Listed::tested_next, crate::proofs::Listed::tested_end))]
pub fn is_permutation(list: &[u32], k: usize) -> bool
    requires { k ≤ most_entries }
    ensures { result ≡ (eqb (length list.now) k && (all_below k list.now && distinct list.now)) }
{
    let mut seen = [false; Plan::ENTRIES];
    if list.len() != k {
        return false;
    }
    for number in list {
        let x = *number as usize;
        if k <= x {
            return false;
        }
        if seen[x] {
            return false;
        }
        seen[x] = true;
    }
    true
}

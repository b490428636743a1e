// The leaves: words in a lent slice. Each function has the exact contents after it as its contract (`map_from` as far as its closure says
// them), and those that only move words serve every width.
#![tactic(auto)]

ghost use Rattle.std.specs.Prelude.{ℕ, ◌≡◌, ◌+◌, ◌-◌, ◌<◌, ◌≤◌, length, replicate, take};
ghost use Rattle.std.proofs.Math.Seq.{slice};
ghost use Rattle.std.proofs.lemmas.List.Edits.{sets};
ghost use Rattle.words.specs.Words.{Gives, Mapped, insert_at, remove_at, swap_remove, map_from, up, down, added, find_from};

// Puts x at place k. What stood there and after it moves one up, and the last element falls off.
pub fn insert_at<T: Copy>(a: &mut [T], k: usize, x: T)
    requires { k < length a.old }
    ensures { a.new ≡ insert_at k x a.old }
{
    let last = a.len() - 1;
    a.copy_within(k..last, k + 1);
    a[k] = x;
}

// Takes place k out. What stood after it moves one down, and the last word is 0.
fn remove_at(a: &mut [u16], k: usize)
    requires { k < length a.old }
    ensures { a.new ≡ remove_at k a.old }
{
    let last = a.len() - 1;
    a.copy_within(k + 1.., k);
    a[last] = 0;
}

// Takes place p out of a row that ends at t: the row's last word comes to p, and what stands from t on moves one down.
pub fn swap_remove(a: &mut [u16], p: usize, t: usize)
    requires { (p < t) × (t ≤ length a.old) }
    ensures { a.new ≡ swap_remove p t a.old }
{
    let last = t - 1;
    a[p] = a[last];
    remove_at(a, last);
}

// f of what stands there at each place from k on.
pub fn map_from<F: Fn(u16) -> u16>(a: &mut [u16], k: usize, f: F)
    requires { F.IsAlwaysCallable f }
    ensures gives { (g : ℕ → ℕ) → Gives F.post f g → a.new ≡ map_from g k a.old }
    ensures each { Mapped (F.post f) k a.old a.new }
{
    // By place: k may lie beyond the end, where no part of the slice begins.
    for i in k..a.len() {
        a[i] = f(a[i]);
    }
}

// One more at each place from k on; the largest number stays.
pub fn up_from(a: &mut [u16], k: usize)
    ensures { a.new ≡ map_from up k a.old }
{
    map_from(a, k, |x| x.saturating_add(1));
}

// One less at each place from k on; 0 stays.
pub fn down_from(a: &mut [u16], k: usize)
    ensures { a.new ≡ map_from down k a.old }
{
    map_from(a, k, |x| x.saturating_sub(1));
}

// `by` more at each place from k on, modulo 2^16.
pub fn add_from(a: &mut [u16], k: usize, by: u16)
    ensures { a.new ≡ map_from (added by) k a.old }
{
    map_from(a, k, |x| x.wrapping_add(by));
}

// The first place from `from` up to, not including, `to` that holds x.
pub fn find(a: &[u16], from: usize, to: usize, x: u16) -> Option<usize>
    requires { (from ≤ to) × (to ≤ length a.now) }
    ensures { result ≡ find_from x from (slice from to a.now) }
{
    let k = a[from..to].iter().position(|y| *y == x)?;
    Some(from + k)
}

// All of s, written from place `at` on.
pub fn copy_to<T: Copy>(a: &mut [T], at: usize, s: &[T])
    requires { at + length s.now ≤ length a.old }
    ensures { a.new ≡ sets a.old at s.now }
{
    // One element after the other: a block's copy is `memmove`, which the archive for C would then need from outside.
    for (i, x) in s.iter().enumerate() {
        a[at + i] = *x;
    }
}

// x at each place from `from` up to, not including, `to`.
pub fn fill<T: Copy>(a: &mut [T], from: usize, to: usize, x: T)
    requires { (from ≤ to) × (to ≤ length a.old) }
    ensures { a.new ≡ sets a.old from (replicate (to - from) x) }
{
    for y in a[from..to].iter_mut() {
        *y = x;
    }
}

// All of s as words of 32 bits, from place `at` on.
pub fn widen(a: &mut [u32], at: usize, s: &[u16])
    requires { at + length s.now ≤ length a.old }
    ensures { a.new ≡ sets a.old at s.now }
{
    for (i, x) in s.iter().enumerate() {
        a[at + i] = u32::from(*x);
    }
}

#[cfg(test)]
mod tests {
    use super::*;

    // Three times each word, from the front, from a place within, from the end and from beyond it.
    #[test]
    fn maps_from_a_place(rt: HostRuntime) {
        for (k, want) in [
            (0, [21, 15, 3]),
            (1, [7, 15, 3]),
            (3, [7, 5, 1]),
            (9, [7, 5, 1]),
        ] {
            let mut a = [7, 5, 1];
            map_from(&mut a, k, |x| x.wrapping_mul(3));
            assert_eq!(rt; a, want, "from {k}");
        }
    }
}

// An owner's stops become others: the stops behind them move, and the offsets follow.
ghost use Rattle.std.specs.Prelude.{◌≡◌, ◌+◌, ◌-◌, ◌≤◌, length};
ghost use Rattle.rules.specs.Sizes.{most_entries};
ghost use Rattle.words.specs.Words.{map_from};
ghost use Rattle.routes.specs.Raw.{splice as spliced, shifted, shift_of};

use rules::Plan;

// Of the stops a: s at f, then what stood from t up to n, then zeros.
pub fn splice(a: &mut [u16], f: usize, t: usize, n: usize, s: &[u16])
    requires { (length a.old ≡ most_entries) × (f + length s.now ≤ most_entries) × (t ≤ n) × (n ≤ most_entries) }
    ensures { a.new ≡ spliced f t n s.now a.old }
{
    let mut rest = [0u16; Plan::ENTRIES];
    let k = f + s.len();
    rest[..n - t].copy_from_slice(&a[t..n]);
    // `copy_to`, as a block's copy between two slices that are lent would be `memmove`.
    words::copy_to(&mut a[f..k], 0, s);
    a[k..].copy_from_slice(&rest[..Plan::ENTRIES - k]);
}

// By how much an offset moves, modulo 2^16, if `out` stops before it give way to `new`.
pub fn shift_of(out: usize, new: usize) -> u16
    requires { (out ≤ most_entries) × (new ≤ most_entries) }
    ensures { result ≡ shift_of out new }
{
    (new as u16).wrapping_sub(out as u16)
}

// Each offset from `from` on is `by` more, modulo 2^16.
pub fn shift(a: &mut [u16], from: usize, by: u16)
    ensures { a.new ≡ map_from (shifted by) from a.old }
{
    words::add_from(a, from, by);
}

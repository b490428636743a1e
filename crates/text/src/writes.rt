// Bytes, digits and fields. What writes does so at a place, and answers the place behind what it wrote.
// Not by `Display`: its formatter says which bytes it writes, not where they stand in the lent slice, and that is what is promised (`Wrote`).
// A place beside the slice, not a part of it: the promise speaks of what stands before the place too.
ghost use Rattle.std.specs.Prelude.{◌≡◌, ◌+◌, ◌≤◌, ◌<◌, [], ◌∷◌, length};
ghost use Rattle.text.specs.Grammar.{digits_of};
ghost use Rattle.text.specs.Writes.{Wrote, Fills, signed_of, most_digits, most_field, most_signed};

// How many digits x has.
fn width(x: u64) -> usize
    ensures { (result ≡ length (digits_of x)) × (result ≤ most_digits) }
{
    let mut n: usize = 1;
    let mut y = x;
    // A `while`: how many turns there are is what is counted.
    while 10 <= y {
        y /= 10;
        n += 1;
    }
    n
}

// The digits of x from `at` on, and the place after them.
pub(crate) fn write_number(out: &mut [u8], at: usize, x: u64) -> usize
    requires { at + most_digits ≤ length out.old }
    ensures { Wrote out.old at (digits_of x) result out.new }
{
    let end = at + width(x);
    let mut y = x;
    for i in (at..end).rev() {
        out[i] = b'0' + (y % 10) as u8;
        y /= 10;
    }
    end
}

// A minus sign, if x is below 0, and the digits of its size.
pub(crate) fn write_signed(out: &mut [u8], at: usize, x: i64) -> usize
    requires { at + most_field ≤ length out.old }
    ensures { Wrote out.old at (signed_of x) result out.new }
{
    let n = x.unsigned_abs();
    if x < 0 {
        out[at] = b'-';
        return write_number(out, at + 1, n);
    }
    write_number(out, at, n)
}

pub(crate) fn byte(out: &mut [u8], at: usize, b: u8) -> usize
    requires { at < length out.old }
    ensures { Wrote out.old at (b ∷ []) result out.new }
{
    out[at] = b;
    at + 1
}

pub(crate) fn bytes(out: &mut [u8], at: usize, s: &[u8]) -> usize
    requires { at + length s.now ≤ length out.old }
    ensures { Wrote out.old at s.now result out.new }
{
    let end = at + s.len();
    out[at..end].copy_from_slice(s);
    end
}

// A space and a number.
pub(crate) fn number_field(out: &mut [u8], at: usize, x: u64) -> usize
    requires { at + most_field ≤ length out.old }
    ensures { Fills out.old at (32 ∷ digits_of x) most_field result out.new }
{
    let p = byte(out, at, b' ');
    write_number(out, p, x)
}

// A space and a number with its sign.
pub(crate) fn signed_field(out: &mut [u8], at: usize, x: i64) -> usize
    requires { at + most_signed ≤ length out.old }
    ensures { Fills out.old at (32 ∷ signed_of x) most_signed result out.new }
{
    let p = byte(out, at, b' ');
    write_signed(out, p, x)
}

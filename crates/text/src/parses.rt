// A line's word and numbers.
ghost use Rattle.std.specs.Prelude.{◌+◌, ◌*◌, ◌≤◌, length};
ghost use Rattle.text.specs.Reads.{Parses};

use crate::fields::numbers;
use crate::vocabulary::{Word, first_of};

// The line's word and how many numbers follow it, which stand in front of `out`. Of a line that doesn't fit, the numbers before the first
// bad field stand there. A field has two bytes or more, so half as many places as the line has bytes do for every line.
// A count, not a part of `out`: a function that hands back a part of a `&mut` has to say what `out` holds once it comes back.
pub fn parse(line: &[u8], out: &mut [u64]) -> Option<(Word, usize)>
    requires { length line.now ≤ 2 * length out.old + 1 }
    ensures { Parses line.now out.old out.new result }
{
    let word = first_of(line)?;
    let count = numbers(line, word.name().len(), out)?;
    if word.fits(count) {
        Some((word, count))
    } else {
        None
    }
}

// The program's lines as calls: those up to `go` fill tables, and each behind it is a call of the library, and answers.
#![tactic(auto)]

pub mod calls;
pub mod critical;
pub mod goes;
pub mod opens;
pub mod shows;
pub mod steps;
pub mod turns;

ghost use Rattle.std.specs.Prelude.{◌≡◌, get_or};
ghost use Rattle.text.specs.Grammar.{fitted};

use rules::Plan;
use text::fields::narrow;

// No input is longer, in bytes.
pub const INPUT: usize = 32768;

// A field has two bytes or more, so no line has more numbers.
pub const NUMBERS: usize = INPUT / 2;

// A `fix` line has eight bytes or more, so there are no more of them.
pub const FIXES: usize = INPUT / 8;

// The longest answer, in bytes, is that of `crit`: a line, and one for each block, of 90 bytes at most.
pub const ANSWER: usize = 96 * Plan::ENTRIES;

// The number at a place of a line, or 0.
fn number_at(numbers: &[u64], i: usize) -> u64
    ensures { result ≡ get_or numbers.now i 0 }
{
    numbers.get(i).copied().unwrap_or(0)
}

// The same, as the library takes it.
fn fitted_at(numbers: &[u64], i: usize) -> u32
    ensures { result ≡ fitted (get_or numbers.now i 0) }
{
    narrow(number_at(numbers, i))
}

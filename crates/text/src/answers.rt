// The lines that are printed.
ghost use Rattle.std.specs.Prelude.{◌+◌, ◌*◌, ◌≤◌, ◌≡◌, length};
ghost use Rattle.text.specs.Grammar.{fields_of};
ghost use Rattle.text.specs.Writes.{Fills, most_field};
ghost use Rattle.text.specs.Answers.{Told, line_of, score_word, score_line, bad_line, no_line, ok_line, block_line, line_length, score_length};

use crate::writes::{byte, bytes, number_field, signed_field};
use rules::{Block, Refusal, Score};

// Room for every line of a word and a number or two.
pub const SHORT: usize = 64;

// The fields of numbers of any width.
fn fields_of<T: Copy + Into<u64>>(out: &mut [u8], at: usize, list: &[T]) -> usize
    requires { at + most_field * length list.now ≤ length out.old }
    ensures { Told T.converts list.now
        (λ ns. Fills out.old at (fields_of ns) (most_field * length list.now) result out.new) }
{
    let mut p = at;
    for x in list {
        p = number_field(out, p, (*x).into());
    }
    p
}

// A word and numbers.
pub fn line<T: Copy + Into<u64>>(out: &mut [u8], at: usize, word: &[u8], list: &[T]) -> usize
    requires { at + line_length (length word.now) (length list.now) ≤ length out.old }
    ensures { Told T.converts list.now
        (λ ns. Fills out.old at (line_of word.now ns) (line_length (length word.now) (length list.now)) result out.new) }
{
    let p = bytes(out, at, word);
    let q = fields_of(out, p, list);
    byte(out, q, b'\n')
}

// `bad` and the line's number.
pub fn bad(out: &mut [u8], number: u64) -> usize
    requires { line_length 3 1 ≤ length out.old }
    ensures { Fills out.old 0 (bad_line number) (line_length 3 1) result out.new }
{
    line(out, 0, b"bad", &[number])
}

// `no` and document 01's number.
pub fn no(out: &mut [u8], at: usize, r: Refusal) -> usize
    requires { at + line_length 2 1 ≤ length out.old }
    ensures { Fills out.old at (no_line r) (line_length 2 1) result out.new }
{
    line(out, at, b"no", &[r.number()])
}

// `block` and its owner, first and last place and route length.
pub fn block(out: &mut [u8], at: usize, b: Block) -> usize
    requires { at + line_length 5 4 ≤ length out.old }
    ensures { Fills out.old at (block_line b) (line_length 5 4) result out.new }
{
    line(out, at, b"block", &[b.owner, b.first, b.last, b.length])
}

// A word and a score's parts.
fn parts(out: &mut [u8], word: &[u8], s: Score) -> usize
    requires { score_length (length word.now) ≤ length out.old }
    ensures { Fills out.old 0 (score_line word.now s) (score_length (length word.now)) result out.new }
{
    let hard = s.hard;
    let soft = s.soft;
    let p = bytes(out, 0, word);
    let q = signed_field(out, p, hard);
    let r = signed_field(out, q, soft);
    byte(out, r, b'\n')
}

// `ok` and a score's parts.
pub fn ok(out: &mut [u8], s: Score) -> usize
    requires { score_length 2 ≤ length out.old }
    ensures { Fills out.old 0 (ok_line s) (score_length 2) result out.new }
{
    parts(out, b"ok", s)
}

// `score` and a score's parts.
pub fn score(out: &mut [u8], s: Score) -> usize
    requires { score_length 5 ≤ length out.old }
    ensures { Fills out.old 0 (score_line score_word s) (score_length 5) result out.new }
{
    parts(out, b"score", s)
}

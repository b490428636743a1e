// One line up to `go`.
ghost use Rattle.std.specs.Prelude.{◌≤◌, ◌<◌, ◌≡◌, true, length};
ghost use Rattle.text.specs.Grammar.{fits_of};
ghost use Rattle.lines.specs.Sizes.{input_limit, most_numbers};
ghost use Rattle.lines.specs.Steps.{Planned, Timed, Tied, Taken, LineTaken};

use crate::{NUMBERS, fitted_at, number_at};
use text::parses::parse;
use text::vocabulary::Word;

// Which lines may come now.
#[derive(Clone, Copy)]
pub enum Stage {
    Plan,
    Durations,
    Fixed,
}

// The numbers of `plan` as typed, and how many durations and fixed pairs stand in front of their tables.
// Counts, not parts of the tables: these are lent anew, to be written, at each line.
#[derive(Clone, Copy)]
pub struct Typed {
    pub jobs: u64,
    pub owners: u64,
    pub durations: usize,
    pub fixed: usize,
}

// What a line that fits comes to.
#[derive(Clone, Copy)]
pub enum Outcome {
    Next(Stage, Typed),
    Go,
}

// `plan N O` alone fits.
fn plan_line(word: Word, numbers: &[u64]) -> Option<Outcome>
    requires { fits_of word (length numbers.now) ≡ true }
    ensures { Planned word numbers.now result }
{
    match word {
        Word::Plan => {
            let plan = Typed {
                jobs: number_at(numbers, 0),
                owners: number_at(numbers, 1),
                durations: 0,
                fixed: 0,
            };
            Some(Outcome::Next(Stage::Durations, plan))
        }
        _ => None,
    }
}

// `dur` alone fits, with as many numbers as the plan has jobs.
fn dur_line(word: Word, numbers: &[u64], plan: Typed, durations: &mut [u64]) -> Option<Outcome>
    requires { length numbers.now ≤ length durations.old }
    ensures { Timed word numbers.now plan durations.old result durations.new }
{
    if numbers.len() as u64 != plan.jobs {
        return None;
    }
    match word {
        Word::Dur => {
            let n = numbers.len();
            durations[..n].copy_from_slice(numbers);
            Some(Outcome::Next(
                Stage::Fixed,
                Typed {
                    durations: n,
                    ..plan
                },
            ))
        }
        _ => None,
    }
}

// `fix A B` and `go` fit.
fn fix_line(
    word: Word,
    numbers: &[u64],
    plan: Typed,
    from: &mut [u32],
    to: &mut [u32],
) -> Option<Outcome>
    requires fits { fits_of word (length numbers.now) ≡ true }
    requires room { (plan.fixed < length from.old) × (plan.fixed < length to.old) }
    ensures { Tied word numbers.now plan from.old to.old result from.new to.new }
{
    let k = plan.fixed;
    match word {
        Word::Fix => {
            from[k] = fitted_at(numbers, 0);
            to[k] = fitted_at(numbers, 1);
            Some(Outcome::Next(
                Stage::Fixed,
                Typed {
                    fixed: k + 1,
                    ..plan
                },
            ))
        }
        Word::Go => Some(Outcome::Go),
        _ => None,
    }
}

// What a word and its numbers come to, by the stage.
// A `match`, not a closure that is handed on: each stage takes other tables, and what comes next is data.
fn word_step(
    word: Word,
    numbers: &[u64],
    stage: Stage,
    plan: Typed,
    durations: &mut [u64],
    from: &mut [u32],
    to: &mut [u32],
) -> Option<Outcome>
    requires fits { (fits_of word (length numbers.now) ≡ true) × (length numbers.now ≤ length durations.old) }
    requires room { (plan.fixed < length from.old) × (plan.fixed < length to.old) }
    ensures { Taken word numbers.now stage plan durations.old from.old to.old
        result durations.new from.new to.new }
{
    match stage {
        Stage::Plan => plan_line(word, numbers),
        Stage::Durations => dur_line(word, numbers, plan, durations),
        Stage::Fixed => fix_line(word, numbers, plan, from, to),
    }
}

// What a line without its LF comes to.
pub(crate) fn step(
    line: &[u8],
    stage: Stage,
    plan: Typed,
    durations: &mut [u64],
    from: &mut [u32],
    to: &mut [u32],
) -> Option<Outcome>
    requires sizes { (length line.now ≤ input_limit) × (most_numbers ≤ length durations.old) }
    requires room { (plan.fixed < length from.old) × (plan.fixed < length to.old) }
    ensures { LineTaken line.now stage plan durations.old from.old to.old
        result durations.new from.new to.new }
{
    let mut numbers = [0u64; NUMBERS];
    let (word, n) = parse(line, &mut numbers)?;
    word_step(word, &numbers[..n], stage, plan, durations, from, to)
}

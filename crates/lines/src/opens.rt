// The lines up to `go`, one after the other.
ghost use Rattle.std.specs.Prelude.{◌≤◌, length};
ghost use Rattle.lines.specs.Sizes.{input_limit, most_numbers, most_fixes};
ghost use Rattle.lines.specs.Steps.{ComesTo};

use crate::steps::{Outcome, Stage, Typed, step};
use text::ends::line_end;

// What was typed up to `go`, the place behind it and the number of its line.
#[derive(Clone, Copy)]
pub struct Go {
    pub plan: Typed,
    pub at: usize,
    pub line: u64,
}

// What the lines come to: `go`; nothing, where the input ends before it; or the number of a line that doesn't fit.
// Three tables, not a struct of them: a struct of `&mut` slices has to say at each line that it holds the same ones.
pub fn gather(
    input: &[u8],
    durations: &mut [u64],
    from: &mut [u32],
    to: &mut [u32],
) -> Result<Option<Go>, u64>
    requires sizes { (length input.now ≤ input_limit) × (most_numbers ≤ length durations.old) }
    requires room { (most_fixes ≤ length from.old) × (most_fixes ≤ length to.old) }
    ensures { ComesTo input.now result durations.new from.new to.new }
{
    let mut stage = Stage::Plan;
    let mut plan = Typed {
        jobs: 0,
        owners: 0,
        durations: 0,
        fixed: 0,
    };
    let mut at: usize = 0;
    let mut line: u64 = 0;
    // A `while`: a turn goes as far as its line.
    while at < input.len() {
        line += 1;
        let Some(e) = line_end(input, at) else {
            return Err(line);
        };
        match step(&input[at..e], stage, plan, durations, from, to) {
            None => return Err(line),
            Some(Outcome::Go) => {
                return Ok(Some(Go {
                    plan,
                    at: e + 1,
                    line,
                }));
            }
            Some(Outcome::Next(s, p)) => {
                stage = s;
                plan = p;
                at = e + 1;
            }
        }
    }
    Ok(None)
}

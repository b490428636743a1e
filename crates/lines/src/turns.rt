// A line behind `go`: what it answers, and where the next one begins.
ghost use Rattle.std.specs.Prelude.{◌≤◌, ◌<◌, length};
ghost use Rattle.stores.specs.Promise.{slices};
ghost use Rattle.lines.specs.Sizes.{input_limit, longest_answer};
ghost use Rattle.lines.specs.Serves.{Turns};
ghost use Rattle.lines.specs.Parts.{LineCalls};

use crate::NUMBERS;
use crate::calls::call;
use text::answers::bad;
use text::ends::line_end;
use text::parses::parse;

// The place of the next line, and how many bytes go out before it.
#[derive(Clone, Copy)]
pub struct Turn {
    pub next: usize,
    pub bytes: usize,
}

// How many bytes a line without its LF answers, if it fits. Five slices, not a `Store`: a line may change three of them.
fn answered(
    line: &[u8],
    owners: u32,
    base: &[u32],
    spans: &[u64],
    edges: &mut [u16],
    routes: &mut [u16],
    times: &mut [u64],
    out: &mut [u8],
) -> Option<usize>
    requires { (length line.now ≤ input_limit) × (longest_answer ≤ length out.old) }
    ensures { LineCalls line.now owners
        (slices base.now spans.now edges.old routes.old times.old)
        (slices base.now spans.now edges.new routes.new times.new)
        out.old result out.new }
{
    let mut numbers = [0u64; NUMBERS];
    let (word, n) = parse(line, &mut numbers)?;
    call(
        word,
        &numbers[..n],
        owners,
        base,
        spans,
        edges,
        routes,
        times,
        out,
    )
}

// The line that begins at a place and has this number. One that doesn't fit, or has no LF, is the last.
pub fn answer_line(
    input: &[u8],
    at: usize,
    line: u64,
    owners: u32,
    base: &[u32],
    spans: &[u64],
    edges: &mut [u16],
    routes: &mut [u16],
    times: &mut [u64],
    out: &mut [u8],
) -> Turn
    requires { (at < length input.now) × (length input.now ≤ input_limit) × (longest_answer ≤ length out.old) }
    ensures { Turns input.now at line owners
        (slices base.now spans.now edges.old routes.old times.old)
        (slices base.now spans.now edges.new routes.new times.new)
        out.old result out.new }
{
    let Some(e) = line_end(input, at) else {
        return Turn {
            next: input.len(),
            bytes: bad(out, line),
        };
    };
    match answered(
        &input[at..e],
        owners,
        base,
        spans,
        edges,
        routes,
        times,
        out,
    ) {
        Some(bytes) => Turn { next: e + 1, bytes },
        None => Turn {
            next: input.len(),
            bytes: bad(out, line),
        },
    }
}

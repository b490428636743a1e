// The calls of one plan, on one store that is zeroed at first.
ghost use Rattle.std.specs.Prelude.{◌+◌, ◌≤◌, ◌<◌, length};

use crate::answers::word;
use crate::arguments::{answer, read};
use crate::lists::Numbers;
use rules::Plan;
use text::ends::line_end;

// Calls, answers that differ, and the place of the next plan.
#[derive(Clone, Copy)]
pub(crate) struct Told {
    pub calls: u64,
    pub differ: u64,
    pub next: usize,
}

// The end of the line that begins at a place: its LF, or the input's end.
fn end_of(input: &[u8], at: usize) -> usize
    requires { at ≤ length input.now }
    ensures { (at ≤ result) × (result ≤ length input.now) }
{
    line_end(input, at).unwrap_or(input.len())
}

// The first place from one on where a plan begins, or the input's end.
pub(crate) fn skip(input: &[u8], from: usize) -> usize
    requires { from ≤ length input.now }
    ensures { (from ≤ result) × (result ≤ length input.now) }
{
    let mut at = from;
    // A `while`: how far a turn goes is where the line ends.
    while at < input.len() {
        let e = end_of(input, at);
        if input[at..e].starts_with(b"pl") {
            return at;
        }
        if input.len() <= e {
            return e;
        }
        at = e + 1;
    }
    at
}

// A slice, or all of it but the last word.
fn cut<T>(slice: &mut [T], short: bool) -> &mut [T]
    ensures { length result.now ≤ length slice.old }
{
    let n = slice.len().saturating_sub(usize::from(short));
    &mut slice[..n]
}

// A byte of a line; a line that ends before it is read on as a comment.
fn letter(line: &[u8], place: usize) -> u8 {
    line.get(place).copied().unwrap_or(b'#')
}

// `short S` and a call: slice S is lent a word shorter than its constant.
fn short(
    line: &[u8],
    base: &mut [u32],
    spans: &mut [u64],
    edges: &mut [u16],
    routes: &mut [u16],
    times: &mut [u64],
    out: &mut Numbers,
) {
    let which = letter(line, 6);
    answer(
        &line[line.len().min(8)..],
        cut(base, which == b'0'),
        cut(spans, which == b'1'),
        cut(edges, which == b'2'),
        cut(routes, which == b'3'),
        cut(times, which == b'4'),
        out,
    );
}

// The recorded answer: its word's first two letters, then its numbers.
fn agrees(line: &[u8], answer: &[i64]) -> bool {
    let said = &line[line.len().min(2)..];
    let mut want = Numbers::new();
    word(&mut want, &[letter(said, 0), letter(said, 1)]);
    read(said, &mut want);
    want.as_slice() == answer
}

// A line that is no plan's: a call, whose answer `out` has then (`short S` lends a slice a word shorter), or the recorded answer to the call before, and whether it agrees.
fn step(
    line: &[u8],
    base: &mut [u32],
    spans: &mut [u64],
    edges: &mut [u16],
    routes: &mut [u16],
    times: &mut [u64],
    out: &mut Numbers,
) -> Option<bool> {
    match line {
        [] | [b'#', ..] => None,
        [b'=', ..] => Some(agrees(line, out.as_slice())),
        [b's', b'h', ..] => {
            short(line, base, spans, edges, routes, times, out);
            None
        }
        _ => {
            answer(line, base, spans, edges, routes, times, out);
            None
        }
    }
}

// The plan whose line begins at a place, up to the next plan. A line has a byte or more, so there are no more calls than bytes.
pub(crate) fn plan(input: &[u8], from: usize) -> Told
    requires { from < length input.now }
    ensures { (from < result.next) × (result.next ≤ length input.now) × (result.calls + from ≤ result.next) × (result.differ + from ≤ result.next) }
{
    let mut base = [0u32; Plan::BASE];
    let mut spans = [0u64; Plan::SPANS];
    let mut edges = [0u16; Plan::EDGES];
    let mut routes = [0u16; Plan::ROUTES];
    let mut times = [0u64; Plan::TIMES];
    let mut out = Numbers::new();
    let mut told = Told {
        calls: 0,
        differ: 0,
        next: 0,
    };
    let mut at = (end_of(input, from) + 1).min(input.len());
    let end = skip(input, at);
    // A `while`: how far a turn goes is where the line ends.
    while at < end {
        let e = end_of(input, at);
        let said = step(
            &input[at..e],
            &mut base,
            &mut spans,
            &mut edges,
            &mut routes,
            &mut times,
            &mut out,
        );
        if let Some(same) = said {
            told.calls += 1;
            told.differ += u64::from(!same);
        }
        at = (e + 1).min(input.len());
    }
    told.next = end;
    told
}

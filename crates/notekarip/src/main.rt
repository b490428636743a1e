// Layer 5, the program: reads document 01's lines from standard input and answers each on standard output.
// The lines up to `go` only fill tables; `go` loads them, and each later line is a call (crate lines).
#![tactic(auto)]

ghost use Rattle.std.specs.Prelude.{◌≤◌, length, OnOk, IfSome};
ghost use Rattle.std.specs.Io.KnownBytes.{Appends};
ghost use Rattle.text.specs.Answers.{reply_text, bad_line};
ghost use Rattle.stores.specs.Promise.{slices};
ghost use Rattle.stores.specs.Says.{says_scored};
ghost use Rattle.lines.specs.Sizes.{input_limit};
ghost use Rattle.lines.specs.Steps.{Within};
ghost use Rattle.lines.specs.Session.{RunPrints};
ghost use Rattle.notekarip.specs.Prints.{Prints, Answers, Opened};

use lines::goes::{go, loaded};
use lines::opens::gather;
use lines::steps::Typed;
use lines::turns::answer_line;
use lines::{ANSWER, FIXES, INPUT, NUMBERS};
use rules::{Plan, Refusal, Score};
use std::io;
use std::io::{Read, Write};
use text::answers::{SHORT, bad};
use text::fields::narrow;
use text::inputs::read_full;

// The lines behind `go`, of which `before` came before. What a line answers goes out before the next one is read; if it can't, the run ends.
fn serve<W: Write>(
    output: &mut W,
    input: &[u8],
    before: u64,
    owners: u32,
    base: &[u32],
    spans: &[u64],
    edges: &mut [u16],
    routes: &mut [u16],
    times: &mut [u64],
) -> io::Result<()>
    requires { (length input.now ≤ input_limit) × (before ≤ input_limit) }
    ensures { OnOk result (Prints (Answers input.now owners before (slices base.now spans.now edges.old routes.old times.old))
        (W.contents output.old) (W.contents output.new)) }
{
    let mut space = [0u8; ANSWER];
    let out: &mut [u8] = &mut space;
    let mut at: usize = 0;
    let mut line = before;
    // A `while`: a turn goes as far as its line.
    while at < input.len() {
        line += 1;
        let t = answer_line(
            input, at, line, owners, base, spans, edges, routes, times, out,
        );
        output.write_all(&out[..t.bytes])?;
        at = t.next;
    }
    Ok(())
}

// The answer to `go`.
fn begun<W: Write>(output: &mut W, answer: Result<Score, Refusal>) -> io::Result<()>
    ensures { OnOk result (Appends (W.contents output.old) (W.contents output.new) (reply_text (says_scored answer))) }
{
    let mut out = [0u8; SHORT];
    let n = loaded(answer, &mut out);
    output.write_all(&out[..n])
}

// `go`, on a store that is zeroed, and the lines behind it.
fn open<W: Write>(
    output: &mut W,
    input: &[u8],
    line: u64,
    plan: Typed,
    durations: &[u64],
    from: &[u32],
    to: &[u32],
) -> io::Result<()>
    requires { (length input.now ≤ input_limit) × (line ≤ input_limit) × Within plan durations.now from.now to.now }
    ensures { OnOk result (Prints (Opened input.now line plan durations.now from.now to.now)
        (W.contents output.old) (W.contents output.new)) }
{
    let mut base = [0u32; Plan::BASE];
    let mut spans = [0u64; Plan::SPANS];
    let mut edges = [0u16; Plan::EDGES];
    let mut routes = [0u16; Plan::ROUTES];
    let mut times = [0u64; Plan::TIMES];
    let answer = go(
        &mut base,
        &mut spans,
        &mut edges,
        &mut routes,
        &mut times,
        plan,
        durations,
        from,
        to,
    );
    begun(output, answer)?;
    serve(
        output,
        input,
        line,
        narrow(plan.owners),
        &base,
        &spans,
        &mut edges,
        &mut routes,
        &mut times,
    )
}

// The only answer to lines that don't come to a `go`.
fn refuse<W: Write>(output: &mut W, line: u64) -> io::Result<()>
    ensures { OnOk result (Appends (W.contents output.old) (W.contents output.new) (bad_line line)) }
{
    let mut out = [0u8; SHORT];
    let n = bad(&mut out, line);
    output.write_all(&out[..n])
}

// What the lines come to.
fn run<W: Write>(output: &mut W, input: &[u8]) -> io::Result<()>
    requires { length input.now ≤ input_limit }
    ensures { OnOk result (Prints (RunPrints input.now) (W.contents output.old) (W.contents output.new)) }
{
    let mut durations = [0u64; NUMBERS];
    let mut from = [0u32; FIXES];
    let mut to = [0u32; FIXES];
    match gather(input, &mut durations, &mut from, &mut to) {
        Err(line) => refuse(output, line),
        Ok(None) => Ok(()),
        Ok(Some(go)) => open(
            output,
            &input[go.at..],
            go.line,
            go.plan,
            &durations,
            &from,
            &to,
        ),
    }
}

// The answers to all that is read. One byte more than the limit is asked for, so that a longer input shows.
fn answer<R: Read, W: Write>(from: &mut R, output: &mut W) -> io::Result<()>
    ensures { OnOk result (IfSome (R.remaining from.old)
        (λ input. Prints (RunPrints input) (W.contents output.old) (W.contents output.new))) }
{
    let mut input = [0u8; INPUT + 1];
    let n = read_full(from, &mut input)?;
    if INPUT < n {
        return refuse(output, 0);
    }
    run(output, &input[..n])
}

fn main(rt: HostRuntime) -> io::Result<()> {
    answer(&mut rt.stdin(), &mut rt.stdout())
}

// Runs the recorded calls through the library and compares every answer: a line for each plan, and a total.
#![tactic(auto)]

mod answers;
mod arguments;
mod calls;
mod lists;
mod moving;
mod plans;

use crate::plans::{Told, plan, skip};
use std::io;
use std::io::Write;
use text::inputs::read_full;

// A number and what it counts.
fn say<W: Write>(output: &mut W, x: u64, what: &[u8]) -> io::Result<()> {
    write!(output, "{x}")?;
    output.write_all(what)
}

// The line of a plan.
fn tell<W: Write>(output: &mut W, k: u64, told: Told) -> io::Result<()> {
    output.write_all(b"plan ")?;
    say(output, k, b": ")?;
    say(output, told.calls, b" calls, ")?;
    say(output, told.differ, b" differ\n")
}

// The plans, one after the other. Each begins on a zeroed store.
fn run<W: Write>(output: &mut W, input: &[u8]) -> io::Result<()> {
    let mut at = skip(input, 0);
    let mut plans: u64 = 0;
    let mut calls: u64 = 0;
    let mut differ: u64 = 0;
    // A `while`: how far a turn goes is where the next plan begins.
    while at < input.len() {
        let told = plan(input, at);
        plans += 1;
        calls += told.calls;
        differ += told.differ;
        tell(output, plans, told)?;
        at = told.next;
    }
    say(output, plans, b" plans, ")?;
    say(output, calls, b" calls, ")?;
    say(output, differ, b" differ\n")
}

// Room for the list.
fn room() -> [u8; 1048576] {
    [0u8; 1048576]
}

fn main(rt: HostRuntime) -> io::Result<()> {
    let mut input = room();
    let n = read_full(&mut rt.stdin(), &mut input)?;
    run(&mut rt.stdout(), &input[..n])
}

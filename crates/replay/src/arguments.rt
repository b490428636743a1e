// A line of the list: which call it is, and the call.
use crate::answers::refused;
use crate::calls::{blocks, load, put, reset, retract, score, starts, verdict};
use crate::lists::{Args, Numbers};
use crate::moving::{change, permute, sublist, swap};
use refresh::store::Store;
use rules::Refusal;

// The calls that only read, by the first letters of their words.
fn looked(line: &[u8], store: Store, args: &mut Args, out: &mut Numbers) -> Result<(), Refusal> {
    match line {
        [b's', b'c', ..] => score(store, out),
        [b'v', b'e', ..] => verdict(store, args, out),
        [b's', b't', ..] => starts(store, args, out),
        [b'b', b'l', ..] => blocks(store, args, out),
        [b'c', b'h', ..] => change(store, args, out),
        [b's', b'u', ..] => sublist(store, args, out),
        [b's', b'w', ..] => swap(store, args, out),
        [b'p', b'e', ..] => permute(store, args, out),
        _ => Ok(()),
    }
}

// The call that was asked for.
fn made(
    line: &[u8],
    base: &mut [u32],
    spans: &mut [u64],
    edges: &mut [u16],
    routes: &mut [u16],
    times: &mut [u64],
    args: &mut Args,
    out: &mut Numbers,
) -> Result<(), Refusal> {
    match line {
        [b'l', b'o', ..] => load(base, spans, edges, routes, times, args, out),
        [b'r', b'e', ..] => reset(base, spans, edges, routes, times, out),
        [b'c', b'u', ..] => retract(base, spans, edges, routes, times, args, out),
        [b'p', b'u', ..] => put(base, spans, edges, routes, times, args, out),
        _ => {
            let store = Store {
                base,
                spans,
                edges,
                routes,
                times,
            };
            looked(line, store, args, out)
        }
    }
}

// The numbers behind a line's word.
pub(crate) fn read(line: &[u8], numbers: &mut Numbers) {
    let from = line.iter().position(|b| *b == b' ');
    numbers.read(line, from.unwrap_or(line.len()));
}

// A call's line, and its answer as numbers.
pub(crate) fn answer(
    line: &[u8],
    base: &mut [u32],
    spans: &mut [u64],
    edges: &mut [u16],
    routes: &mut [u16],
    times: &mut [u64],
    out: &mut Numbers,
) {
    let mut numbers = Numbers::new();
    read(line, &mut numbers);
    let mut args = Args {
        rest: numbers.as_slice(),
    };
    out.clear();
    if let Err(r) = made(line, base, spans, edges, routes, times, &mut args, out) {
        refused(out, r);
    }
}

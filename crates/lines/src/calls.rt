// `put`, `cut`, `show` and `crit`.
ghost use Rattle.std.specs.Prelude.{◌≤◌, ◌≡◌, true, map, length, get_or, drop};
ghost use Rattle.std.proofs.lemmas.List.Edits.{sets};
ghost use Rattle.rules.specs.Calls.{to_put, to_retract};
ghost use Rattle.text.specs.Grammar.{fits_of, fitted};
ghost use Rattle.stores.specs.Promise.{slices};
ghost use Rattle.text.specs.Answers.{score_length};
ghost use Rattle.lines.specs.Sizes.{most_numbers, longest_answer};
ghost use Rattle.lines.specs.Answers.{Answers, call};
ghost use Rattle.lines.specs.Parts.{Calls};

use crate::critical::crit;
use crate::shows::show;
use crate::{NUMBERS, fitted_at};
use refresh::retract::retract;
use refresh::store::Store;
use rules::{Owner, Score};
use text::answers::{no, ok};
use text::fields::narrow;
use text::vocabulary::Word;

// Each number as the library takes it, in front of the list.
fn narrow_all(numbers: &[u64], list: &mut [u32])
    requires { length numbers.now ≤ length list.old }
    ensures { list.new ≡ sets list.old 0 (map fitted numbers.now) }
{
    for (i, x) in numbers.iter().enumerate() {
        list[i] = narrow(*x);
    }
}

// `put O` and entries. More entries than the library takes reach it as they are. Five slices, not a `Store`: a put lends three of them mutably, a cut one.
fn put(
    base: &[u32],
    spans: &[u64],
    edges: &mut [u16],
    routes: &mut [u16],
    times: &mut [u64],
    numbers: &[u64],
    out: &mut [u8],
) -> usize
    requires { (1 ≤ length numbers.now) × (length numbers.now ≤ most_numbers) × (score_length 2 ≤ length out.old) }
    ensures { Answers (call (to_put (fitted (get_or numbers.now 0 0)) (map fitted (drop 1 numbers.now))))
        (slices base.now spans.now edges.old routes.old times.old)
        (slices base.now spans.now edges.new routes.new times.new)
        out.old result out.new }
{
    let mut list = [0u32; NUMBERS];
    let n = numbers.len() - 1;
    narrow_all(&numbers[1..], &mut list);
    let owner = Owner(fitted_at(numbers, 0));
    match refresh::put::put(base, spans, edges, routes, times, owner, &list[..n]) {
        Err(r) => no(out, 0, r),
        Ok(change) => ok(out, change.score),
    }
}

// `cut O`.
fn cut(
    base: &[u32],
    spans: &[u64],
    edges: &[u16],
    routes: &mut [u16],
    times: &[u64],
    numbers: &[u64],
    out: &mut [u8],
) -> usize
    requires { score_length 2 ≤ length out.old }
    ensures { Answers (call (to_retract (fitted (get_or numbers.now 0 0))))
        (slices base.now spans.now edges.now routes.old times.now)
        (slices base.now spans.now edges.now routes.new times.now)
        out.old result out.new }
{
    let owner = Owner(fitted_at(numbers, 0));
    match retract(base, spans, edges, routes, times, owner) {
        Err(r) => no(out, 0, r),
        Ok(()) => ok(out, Score { hard: 0, soft: 0 }),
    }
}

// `put`, `cut`, `show` and `crit` fit: how many bytes they answer.
pub(crate) fn call(
    word: Word,
    numbers: &[u64],
    owners: u32,
    base: &[u32],
    spans: &[u64],
    edges: &mut [u16],
    routes: &mut [u16],
    times: &mut [u64],
    out: &mut [u8],
) -> Option<usize>
    requires { (fits_of word (length numbers.now) ≡ true) × (length numbers.now ≤ most_numbers) × (longest_answer ≤ length out.old) }
    ensures { Calls word numbers.now owners
        (slices base.now spans.now edges.old routes.old times.old)
        (slices base.now spans.now edges.new routes.new times.new)
        out.old result out.new }
{
    match word {
        Word::Put => Some(put(base, spans, edges, routes, times, numbers, out)),
        Word::Cut => Some(cut(base, spans, edges, routes, times, numbers, out)),
        Word::Show => {
            let store = Store {
                base,
                spans,
                edges,
                routes,
                times,
            };
            Some(show(store, out))
        }
        Word::Crit => {
            let store = Store {
                base,
                spans,
                edges,
                routes,
                times,
            };
            Some(crit(store, owners, out))
        }
        _ => None,
    }
}

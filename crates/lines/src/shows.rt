// `show`: the score, then the cycle, or the starts and the line-up.
ghost use Rattle.std.specs.Prelude.{◌+◌, ◌*◌, ◌≤◌, length};
ghost use Rattle.stores.specs.Held.{held};
ghost use Rattle.lines.specs.Sizes.{long_line, longest_answer};
ghost use Rattle.lines.specs.Answers.{Answers, whole_show};
ghost use Rattle.lines.specs.Parts.{ShowsStarts, ShowsVerdict};

use refresh::store::Store;
use refresh::verdict::{Judged, verdict};
use rules::Plan;
use text::answers::{line, no, score};

// The line of the starts.
fn starts(store: Store, out: &mut [u8], at: usize) -> usize
    requires { at + long_line ≤ length out.old }
    ensures { ShowsStarts
        (held store.entry)
        out.old at result out.new }
{
    let mut list = [0u64; Plan::JOBS];
    match refresh::reported::starts(store, &mut list) {
        Err(r) => no(out, at, r),
        Ok(k) => {
            let n = k.min(Plan::JOBS);
            line(out, at, b"starts", &list[..n])
        }
    }
}

// The line of the cycle, or those of the starts and of the line-up.
fn judged(store: Store, out: &mut [u8], at: usize) -> usize
    requires { at + 2 * long_line ≤ length out.old }
    ensures { ShowsVerdict
        (held store.entry)
        out.old at result out.new }
{
    let mut list = [0u32; Plan::JOBS];
    match verdict(store, &mut list) {
        Err(r) => no(out, at, r),
        Ok(Judged::Cycle(k)) => {
            let n = k.min(Plan::JOBS);
            line(out, at, b"cycle", &list[..n])
        }
        Ok(Judged::LineUp(k)) => {
            let n = k.min(Plan::JOBS);
            let p = starts(store, out, at);
            line(out, p, b"order", &list[..n])
        }
    }
}

pub(crate) fn show(store: Store, out: &mut [u8]) -> usize
    requires { longest_answer ≤ length out.old }
    ensures { Answers whole_show
        (held store.entry)
        (held store.entry)
        out.old result out.new }
{
    match refresh::score::score(store) {
        Err(r) => no(out, 0, r),
        Ok((s, _)) => {
            let p = score(out, s);
            judged(store, out, p)
        }
    }
}

// Answers as numbers: the first two letters of the word, then what follows it.
use crate::lists::{Number, Numbers};
use moves::moved::Moved;
use refresh::put::Change;
use refresh::verdict::Judged;
use rules::{Block, Refusal, Score};

// A word's first two letters.
pub(crate) fn word(out: &mut Numbers, letters: &[u8; 2]) {
    for b in letters {
        out.push(i64::from(*b));
    }
}

pub(crate) fn refused(out: &mut Numbers, r: Refusal) {
    word(out, b"no");
    out.push(i64::from(r.number()));
}

// A word and a score's parts.
fn parts(out: &mut Numbers, letters: &[u8; 2], s: Score) {
    word(out, letters);
    out.push(s.hard);
    out.push(s.soft);
}

pub(crate) fn ok(out: &mut Numbers, s: Score) {
    parts(out, b"ok", s);
}

pub(crate) fn changed(out: &mut Numbers, change: Change) {
    ok(out, change.score);
    out.count(change.report.kind());
    out.count(u64::from(change.report.visits()));
}

pub(crate) fn counted(out: &mut Numbers, s: Score, matches: u64) {
    parts(out, b"sc", s);
    out.count(matches);
}

// The first k of a list: how many they are, and its elements.
fn list<T: Number>(out: &mut Numbers, list: &[T], k: usize) {
    out.count(k.min(list.len()) as u64);
    for x in list.iter().take(k) {
        out.count(x.wide());
    }
}

pub(crate) fn judged(out: &mut Numbers, shown: Judged, jobs: &[u32]) {
    match shown {
        Judged::LineUp(k) => {
            word(out, b"or");
            list(out, jobs, k);
        }
        Judged::Cycle(k) => {
            word(out, b"cy");
            list(out, jobs, k);
        }
    }
}

pub(crate) fn started(out: &mut Numbers, starts: &[u64], k: usize) {
    word(out, b"st");
    list(out, starts, k);
}

pub(crate) fn block(out: &mut Numbers, b: Block) {
    for x in [b.owner, b.first, b.last, b.length] {
        out.count(u64::from(x));
    }
}

// Both verdicts, and the new route.
pub(crate) fn moved(out: &mut Numbers, m: Moved, route: &[u32]) {
    word(out, b"mo");
    out.push(i64::from(m.quick));
    out.push(i64::from(m.full));
    list(out, route, m.length);
}

// Layer 1: the edges between the jobs, with a count each, in one lent slice of five tables. Words that make no sense are an error
// where a table would be written, and nothing where one is read. The slice is lent anew at each call, so each call asks for its length.
#![tactic(auto)]

pub mod fixed;
pub mod lists;
mod spans;

ghost use Rattle.std.specs.Prelude.{◌≡◌, ◌+◌, ◌<◌, ◌≤◌, length, get_or, set};
ghost use Rattle.rules.specs.Sizes.{edges_length, most_jobs};
ghost use Rattle.edges.specs.Layout.{counts_at, most_edges, starts_length};
ghost use Rattle.edges.specs.Raw.{Placed, ins_in, up_in, appear_in, out_in, down_in, vanish_in};
ghost use Rattle.edges.specs.Edges.{Counts, Adds, Removes};

use rules::{Job, Plan, Senseless};
use spans::{PREDECESSORS, Rows, SUCCESSORS, ends};

// How many edges there is room for.
const ROOM: usize = 4096;
// The words of a table of starts: where each job's row starts, and the total.
const STARTS: usize = Plan::JOBS + 1;
// Where the tables lie: the starts of the successors' rows at 0, then the successors, job after job and zeros behind them, and their counts;
// the starts of the predecessors' rows, and the predecessors.
const HEADS: usize = STARTS;

const COUNTS: usize = HEADS + ROOM;

const TAIL_STARTS: usize = COUNTS + ROOM;

const TAILS: usize = TAIL_STARTS + STARTS;

#[derive(Clone, Copy)]
pub enum Added {
    Appeared,
    Counted,
}

#[derive(Clone, Copy)]
pub enum Removed {
    Vanished,
    Lessened,
    Absent,
}

// Where a number stands in a row that ends at the second place, or, where it does not stand there, the end.
#[derive(Clone, Copy)]
enum Place {
    At(usize, usize),
    Nowhere(usize),
}

// Looks x up in row i.
fn look(e: &[u16], rows: Rows, i: usize, x: usize) -> Result<Place, Senseless>
    requires { (rows.starts + starts_length ≤ length e.now) × (rows.elements + most_edges ≤ length e.now) × (i < most_jobs) × (x < most_jobs) }
    ensures { Placed rows.starts rows.elements i x e.now result }
{
    let (f, t) = ends(e, rows, i)?;
    let a = rows.elements;
    match words::find(&e[a..a + ROOM], f, t, x as u16) {
        Some(p) => Ok(Place::At(p, t)),
        None => Ok(Place::Nowhere(t)),
    }
}

// The count at place p.
fn times(e: &[u16], p: usize) -> u16
    requires { (length e.now ≡ edges_length) × (p < most_edges) }
    ensures { result ≡ get_or e.now (counts_at + p) 0 }
{
    e[COUNTS + p]
}

// Another count at place p.
fn retime(e: &mut [u16], p: usize, n: u16)
    requires { (length e.old ≡ edges_length) × (p < most_edges) }
    ensures { e.new ≡ set e.old (counts_at + p) n }
{
    e[COUNTS + p] = n;
}

// How often the edge from `from` to `to` is there.
pub fn count(e: &[u16], from: Job, to: Job) -> u16
    requires { (length e.now ≡ edges_length) × (from.0 < most_jobs) × (to.0 < most_jobs) }
    ensures { Counts e.now from.0 to.0 result }
{
    match look(e, SUCCESSORS, from.0 as usize, to.0 as usize) {
        Ok(Place::At(p, _)) => times(e, p),
        Ok(Place::Nowhere(_)) => 0,
        Err(Senseless) => 0,
    }
}

// Puts x at place k of the w words from a on.
#[tactic(auto, using(crate::proofs::Steps::ins_is))]
fn ins(e: &mut [u16], a: usize, w: usize, k: usize, x: u16)
    requires { (a + w ≤ length e.old) × (k < w) }
    ensures { e.new ≡ ins_in a w k x e.old }
{
    words::insert_at(&mut e[a..a + w], k, x);
}

// One more at each place from k on of the starts that lie at a.
// Apart from `downs`, as `up_in` and `down_in` are: one function over a flag would say neither.
#[tactic(auto, using(crate::proofs::Steps::ups_is))]
fn ups(e: &mut [u16], a: usize, k: usize)
    requires { a + starts_length ≤ length e.old }
    ensures { e.new ≡ up_in a k e.old }
{
    words::up_from(&mut e[a..a + STARTS], k);
}

// A new edge from i to j: at the place t of the successors, and q of the predecessors, of which the first w words are moved.
#[tactic(auto, using(crate::proofs::Steps::appear_is))]
fn appear(e: &mut [u16], i: usize, j: usize, w: usize, t: usize, q: usize)
    requires { (length e.old ≡ edges_length) × (i < most_jobs) × (j < most_jobs) × (w ≤ most_edges) × (t < w) × (q < w) }
    ensures { e.new ≡ appear_in i j w t q e.old }
{
    ins(e, HEADS, w, t, j as u16);
    ins(e, COUNTS, w, t, 1);
    ups(e, 0, i + 1);
    ins(e, TAILS, w, q, i as u16);
    ups(e, TAIL_STARTS, j + 1);
}

// One more edge from `from` to `to`.
pub fn add(e: &mut [u16], from: Job, to: Job) -> Result<Added, Senseless>
    requires { (length e.old ≡ edges_length) × (from.0 < most_jobs) × (to.0 < most_jobs) }
    ensures { Adds e.old from.0 to.0 e.new result }
{
    let i = from.0 as usize;
    let j = to.0 as usize;
    match look(&e[..], SUCCESSORS, i, j)? {
        Place::At(p, _) => {
            let n = times(&e[..], p);
            if n == u16::MAX {
                return Err(Senseless);
            }
            retime(e, p, n + 1);
            Ok(Added::Counted)
        }
        Place::Nowhere(t) => {
            let n = usize::from(e[Plan::JOBS]);
            let q = usize::from(e[TAIL_STARTS + j + 1]);
            if ROOM <= n || n < t || n < q {
                return Err(Senseless);
            }
            appear(e, i, j, n + 1, t, q);
            Ok(Added::Appeared)
        }
    }
}

// Takes place p out of the row that ends at t, in the w words from a on.
#[tactic(auto, using(crate::proofs::Steps::outs_is))]
fn outs(e: &mut [u16], a: usize, w: usize, p: usize, t: usize)
    requires { (a + w ≤ length e.old) × (p < t) × (t ≤ w) }
    ensures { e.new ≡ out_in a w p t e.old }
{
    words::swap_remove(&mut e[a..a + w], p, t);
}

// One less at each place from k on of the starts that lie at a.
#[tactic(auto, using(crate::proofs::Steps::downs_is))]
fn downs(e: &mut [u16], a: usize, k: usize)
    requires { a + starts_length ≤ length e.old }
    ensures { e.new ≡ down_in a k e.old }
{
    words::down_from(&mut e[a..a + STARTS], k);
}

// The edge from i to j goes: from the place p of a row that ends at t, and s of one that ends at v. The first w words are moved.
#[tactic(auto, using(crate::proofs::Steps::vanish_is))]
fn vanish(e: &mut [u16], i: usize, j: usize, w: usize, p: usize, t: usize, s: usize, v: usize)
    requires { (length e.old ≡ edges_length) × (i < most_jobs) × (j < most_jobs) × (w ≤ most_edges) × (p < t) × (t ≤ w) × (s < v) × (v ≤ w) }
    ensures { e.new ≡ vanish_in i j w p t s v e.old }
{
    outs(e, HEADS, w, p, t);
    outs(e, COUNTS, w, p, t);
    downs(e, 0, i + 1);
    outs(e, TAILS, w, s, v);
    downs(e, TAIL_STARTS, j + 1);
}

// One edge less from `from` to `to`.
pub fn remove(e: &mut [u16], from: Job, to: Job) -> Result<Removed, Senseless>
    requires { (length e.old ≡ edges_length) × (from.0 < most_jobs) × (to.0 < most_jobs) }
    ensures { Removes e.old from.0 to.0 e.new result }
{
    let i = from.0 as usize;
    let j = to.0 as usize;
    match look(&e[..], SUCCESSORS, i, j)? {
        Place::Nowhere(_) => Ok(Removed::Absent),
        Place::At(p, t) => {
            let n = times(&e[..], p);
            if 1 < n {
                retime(e, p, n - 1);
                return Ok(Removed::Lessened);
            }
            let Place::At(s, v) = look(&e[..], PREDECESSORS, j, i)? else {
                return Err(Senseless);
            };
            let w = usize::from(e[Plan::JOBS]);
            if ROOM < w || w < t || w < v {
                return Err(Senseless);
            }
            vanish(e, i, j, w, p, t, s, v);
            Ok(Removed::Vanished)
        }
    }
}

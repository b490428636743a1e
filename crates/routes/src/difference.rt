// Which edges of an old route have no equal one in the new route, and the reverse. An edge is one number: from * JOBS + to.
#![tactic(auto)]

ghost use Rattle.std.specs.Prelude.{◌≡◌, ◌+◌, ◌*◌, ◌/◌, ◌<◌, ◌≤◌, ◌++◌, length, take, drop, ◌==◌, reverse, position};
ghost use Rattle.rules.specs.Sizes.{most_jobs};
ghost use Rattle.routes.specs.Differs.{Linked, Differed, seat, alike};

use rules::Plan;
use words::insert_at;

pub const JOBS: u32 = Plan::JOBS as u32;

// No edge's number: in the place of one that is matched.
const STRUCK: u32 = JOBS * JOBS;

// The job of a stop.
fn job_of(stop: u16) -> u32
    ensures { (result ≡ stop / 2) × (result ≤ 65535) }
{
    u32::from(stop / 2)
}

fn code(last: u32, job: u32) -> u32
    requires { (last ≤ 65535) × (job ≤ 65535) }
    ensures { result ≡ last * most_jobs + job }
{
    last * JOBS + job
}

// The edges of a route, into the front of `out`: one for each stop that is joined to the one before.
// The answer is how many, not that front: the caller lends it mutably afterwards.
pub fn links_of(s: &[u16], out: &mut [u32]) -> usize
    requires { length s.now ≤ length out.old }
    ensures { Linked s.now out.new result }
{
    let mut n = 0;
    let mut last = 0;
    for &w in s {
        let job = job_of(w);
        if w % 2 == 1 {
            out[n] = code(last, job);
            n += 1;
        }
        last = job;
    }
    n
}

// The first place of x.
fn place_of(a: &[u32], x: u32) -> Option<usize>
    ensures { result ≡ position (λ y. y == x) a.now }
{
    a.iter().position(|y| *y == x)
}

// x joins the first n: beside the first that equals it, else at the end.
fn seat_in(a: &mut [u32], n: usize, x: u32)
    requires { n < length a.old }
    ensures { a.new ≡ seat x (take n a.old) ++ drop (n + 1) a.old }
{
    let p = place_of(&a[..n], x).unwrap_or(n);
    insert_at(&mut a[..n + 1], p, x);
}

// Which of the old edges have no equal one among the new ones, into the front of `old`: equals together, each by its first place. The new
// ones that are matched are struck out. The answer is how many, not that front: the caller reads `new` beside it.
pub fn differences(old: &mut [u32], new: &mut [u32]) -> usize
    ensures { Differed old.old new.old old.new new.new result }
{
    let mut g = 0;
    'old: for i in 0..old.len() {
        let x = old[i];
        for y in new.iter_mut() {
            if *y == x {
                *y = STRUCK;
                continue 'old;
            }
        }
        seat_in(old, g, x);
        g += 1;
    }
    g
}

// How many edges at the front are the same.
pub fn same_front(old: &[u32], new: &[u32]) -> usize
    ensures same { result ≡ alike old.now new.now }
    ensures inside { (result ≤ length old.now) × (result ≤ length new.now) }
{
    old.iter().zip(new).take_while(|(x, y)| **x == **y).count()
}

// How many edges at the back are the same.
pub fn same_back(old: &[u32], new: &[u32]) -> usize
    ensures same { result ≡ alike (reverse old.now) (reverse new.now) }
    ensures inside { (result ≤ length old.now) × (result ≤ length new.now) }
{
    old.iter()
        .rev()
        .zip(new.iter().rev())
        .take_while(|(x, y)| **x == **y)
        .count()
}

// How often each job is in force, when stops come and go. A number that is no job is passed over.
#![tactic(auto, using(crate::proofs::Tallying::tallying))]

ghost use Rattle.std.specs.Prelude.{◌≡◌, ◌≤◌, true, false, length};
ghost use Rattle.rules.specs.Sizes.{most_jobs, most_entries, routes_length};
ghost use Rattle.routes.specs.Counting.{stepped, count_one, count_all, stops_in, recount_in};

use crate::{ASSIGNED, STOPS};
use rules::Plan;

// One more or less; it stays a word. Both ways in one, as `stepped` has them.
fn step(c: u16, more: bool) -> u16
    ensures { result ≡ stepped more c }
{
    if more {
        c.saturating_add(1)
    } else {
        c.saturating_sub(1)
    }
}

// One more or less for the stop's job.
fn count(a: &mut [u16], stop: u16, more: bool)
    requires { length a.old ≡ most_jobs }
    ensures { a.new ≡ count_one more a.old stop }
{
    let j = usize::from(stop / 2);
    if j < Plan::JOBS {
        a[j] = step(a[j], more);
    }
}

// The stops s come into force, or are in force no longer: a are the counts.
pub fn recount(a: &mut [u16], s: &[u16], more: bool)
    requires { length a.old ≡ most_jobs }
    ensures { a.new ≡ count_all more a.old s.now }
{
    for &stop in s {
        count(a, stop, more);
    }
}

// The stops from f up to t are in force no longer.
pub fn unassign(r: &mut [u16], f: usize, t: usize)
    requires { (length r.old ≡ routes_length) × (f ≤ t) × (t ≤ most_entries) }
    ensures { r.new ≡ recount_in false (stops_in r.old f t) r.old }
{
    let (rows, counts) = r.split_at_mut(ASSIGNED);
    recount(
        &mut counts[..Plan::JOBS],
        &rows[STOPS + f..STOPS + t],
        false,
    );
}

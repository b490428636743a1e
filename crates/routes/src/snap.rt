// What a route's entries come to.
ghost use Rattle.std.specs.Prelude.{◌≡◌, ◌<◌, ◌≤◌, length, slice_index_or};
ghost use Rattle.rules.specs.Sizes.{most_jobs, most_entries, nobodys};
ghost use Rattle.routes.specs.Stops.{word};
ghost use Rattle.routes.specs.Snapped.{strayed, Snapped};

use rules::{Job, Owner, Plan};

// A route's valid entries, invalid entries and violations.
#[derive(Clone, Copy)]
pub struct Snap {
    pub valid: usize,
    pub invalid: usize,
    pub violations: usize,
}

// The word of a stop.
fn stop(job: Job, joined: bool) -> u16
    requires { job.0 < most_jobs }
    ensures { result ≡ word (job.0, joined) }
{
    (job.0 * 2) as u16 + u16::from(joined)
}

// Whether the job is stated to belong to another owner.
fn strays(expected: &[u32], job: Job, owner: Owner) -> bool
    ensures { result ≡ strayed owner.0 (slice_index_or expected.now job.0 nobodys) }
{
    match expected.get(job.0 as usize) {
        Some(&stated) => stated != Plan::NOBODY && stated != owner.0,
        None => false,
    }
}

// The valid entries of a route as stops, and what else counts of it.
pub fn snapshot(
    entries: &[u32],
    plan: Plan,
    expected: &[u32],
    owner: Owner,
    out: &mut [u16],
) -> Snap
    requires { (length entries.now ≤ most_entries) × (plan.jobs ≤ most_jobs) × (length out.old ≡ most_entries) }
    ensures { Snapped plan.jobs entries.now expected.now owner.0 out.old out.new result }
{
    let mut valid = 0;
    let mut invalid = 0;
    let mut violations = 0;
    let mut joined = false;
    for &entry in entries {
        let job = Job(entry);
        if plan.has_job(job) {
            out[valid] = stop(job, joined);
            valid += 1;
            violations += usize::from(strays(expected, job, owner));
            joined = true;
        } else {
            invalid += 1;
            joined = false;
        }
    }
    Snap {
        valid,
        invalid,
        violations,
    }
}

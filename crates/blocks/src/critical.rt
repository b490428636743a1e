// Latest starts, backwards over a line-up, and which jobs are critical.
ghost use Rattle.std.specs.Prelude.{◌≡◌, ◌<◌, ◌≤◌, length};
ghost use Rattle.rules.specs.Sizes.{edges_length, most_jobs};
ghost use Rattle.blocks.specs.Latests.{lower_of, Late, Latests, Criticals};

use edges::lists::successors;
use rules::Plan;
use starts::lineup::line_up;

// `low`, or the latest start of job w if that is less. A number that is no job is passed over.
fn lower(late: &[u64], w: u16, n: usize, low: u64) -> u64
    requires { n ≤ length late.now }
    ensures { result ≡ lower_of late.now n low w }
{
    let k = usize::from(w);
    if n <= k { low } else { late[k].min(low) }
}

// The latest start of job v.
fn latest(e: &[u16], spans: &[u64], late: &[u64], v: usize, n: usize, top: u64) -> u64
    requires { (length e.now ≡ edges_length) × (n ≤ length spans.now) × (n ≤ length late.now) × (v < n) × (n ≤ most_jobs) }
    ensures { Late e.now spans.now late.now v n top result }
{
    let row = successors(e, v);
    let mut low = top;
    for &w in row {
        low = lower(late, w, n, low);
    }
    low.saturating_sub(spans[v])
}

// Every latest start from the end of the order, and 1 for each job that starts at its latest.
// Parameters, not a struct: two of the tables are written while the others are read, and no other function takes them all.
fn latests(
    e: &[u16],
    spans: &[u64],
    starts: &[u64],
    order: &[u16],
    late: &mut [u64],
    crit: &mut [u8],
    n: usize,
    top: u64,
)
    requires { (length e.now ≡ edges_length) × (n ≤ length spans.now) × (n ≤ length starts.now) × (n ≤ length order.now)
        × (n ≤ length late.old) × (n ≤ length crit.old) × (n ≤ most_jobs) }
    ensures { Latests e.now spans.now starts.now order.now n top crit.new }
{
    for i in (0..n).rev() {
        let v = usize::from(order[i]);
        if n <= v {
            return;
        }
        let x = latest(e, spans, &late[..], v, n, top);
        late[v] = x;
        crit[v] = u8::from(starts[v] == x);
    }
}

// 1 for each critical job, where there is a line-up.
pub fn critical(e: &[u16], spans: &[u64], starts: &[u64], top: u64, n: usize, crit: &mut [u8])
    requires { (length e.now ≡ edges_length) × (n ≤ length spans.now) × (n ≤ length starts.now) × (n ≤ length crit.old)
        × (n ≤ most_jobs) }
    ensures { Criticals e.now spans.now starts.now top n crit.new }
{
    let mut order = [0u16; Plan::JOBS];
    let mut late = [0u64; Plan::JOBS];
    if line_up(e, n, &mut order) {
        latests(e, spans, starts, &order, &mut late, crit, n, top);
    }
}

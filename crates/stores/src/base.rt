// The base and the spans, which load alone writes: mark, counts, the fixed list, expected owners; durations.
ghost use Rattle.std.specs.Prelude.{◌≡◌, ◌++◌, ◌∷◌, [], ◌+◌, ◌-◌, ◌≤◌, length, take, drop, replicate};
ghost use Rattle.std.proofs.lemmas.List.Edits.{sets};
ghost use Rattle.rules.specs.Sizes.{base_length, most_fixed, most_jobs, spans_length};
ghost use Rattle.stores.specs.Words.{padded, strays, base_laid, from_at, to_at, expected_at};

use rules::Plan;
use words::{copy_to, fill};

// Where the fixed list's two tables and the expected owners begin.
const FROM: usize = 5;

const TO: usize = FROM + Plan::FIXED;

const EXPECTED: usize = TO + Plan::FIXED;

// The expected owners of all jobs.
pub fn expected(base: &[u32]) -> &[u32]
    requires { base_length ≤ length base.now }
    ensures { result.now ≡ take most_jobs (drop expected_at base.now) }
{
    &base[EXPECTED..EXPECTED + Plan::JOBS]
}

// The first k of the fixed list's tails.
pub fn froms(base: &[u32], k: usize) -> &[u32]
    requires { (base_length ≤ length base.now) × (k ≤ most_fixed) }
    ensures { result.now ≡ take k (drop from_at base.now) }
{
    &base[FROM..FROM + k]
}

// The first k of its heads.
pub fn tos(base: &[u32], k: usize) -> &[u32]
    requires { (base_length ≤ length base.now) × (k ≤ most_fixed) }
    ensures { result.now ≡ take k (drop to_at base.now) }
{
    &base[TO..TO + k]
}

// The words of s at `at`, then x up to `to`.
fn lay<T: Copy>(a: &mut [T], at: usize, s: &[T], to: usize, x: T)
    requires { (at + length s.now ≤ to) × (to ≤ length a.old) }
    ensures { a.new ≡ sets a.old at (s.now ++ replicate (to - (at + length s.now)) x) }
{
    copy_to(a, at, s);
    fill(a, at + s.len(), to, x);
}

// The durations, then zeros.
pub fn write_spans(a: &mut [u64], s: &[u64])
    requires { (length s.now ≤ spans_length) × (spans_length ≤ length a.old) }
    ensures { a.new ≡ padded spans_length s.now ++ drop spans_length a.old }
{
    lay(a, 0, s, Plan::SPANS, 0);
}

// How many fixed pairs lead to no job.
fn invalid_fixed(to: &[u32], n: u32) -> u32
    requires { length to.now ≤ most_fixed }
    ensures { result ≡ strays n to.now }
{
    to.iter().filter(|v| n <= **v).count() as u32
}

// The first five words, then the fixed list's two tables and the expected owners.
pub fn write_base(
    base: &mut [u32],
    jobs: u32,
    owners: u32,
    expected: &[u32],
    from: &[u32],
    to: &[u32],
)
    requires { (base_length ≤ length base.old) × (length from.now ≤ most_fixed) × (length to.now ≡ length from.now)
        × (length expected.now ≤ most_jobs) }
    ensures { base.new
        ≡ base_laid jobs owners expected.now from.now to.now ++ drop base_length base.old }
{
    let invalid = invalid_fixed(to, jobs);
    copy_to(base, 0, &[1, jobs, owners, from.len() as u32, invalid]);
    lay(base, FROM, from, TO, 0);
    lay(base, TO, to, EXPECTED, 0);
    lay(base, EXPECTED, expected, Plan::BASE, Plan::NOBODY);
}

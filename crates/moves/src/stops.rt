// An owner's route in force, as its jobs.
ghost use Rattle.std.specs.Prelude.{◌≡◌, ◌≤◌, length};
ghost use Rattle.std.proofs.lemmas.List.Edits.{sets};
ghost use Rattle.rules.specs.Lists.{all_below};
ghost use Rattle.rules.specs.Sizes.{most_entries, routes_length};
ghost use Rattle.moves.specs.Stopping.{Stops, halves};

use routes::rows::{is_broken, stops};
use rules::{Owner, Refusal};

// The jobs of the stops.
#[tactic(auto, using(crate::proofs::Halved::halving_none, crate::proofs::Halved::halving_next, crate::proofs::Halved::halving_done))]
fn jobs_of(row: &[u16], out: &mut [u16])
    requires { length row.now ≤ length out.old }
    ensures { out.new ≡ sets out.old 0 (halves row.now) }
{
    for (i, stop) in row.iter().enumerate() {
        out[i] = *stop / 2;
    }
}

// The owner's route, if it was put with no invalid entry: its jobs come to the front of `out`. How many they are.
#[tactic(auto, using(crate::proofs::Halved::stops_broken))]
pub fn route_of(routes: &[u16], owner: Owner, out: &mut [u16]) -> Result<usize, Refusal>
    requires { (length routes.now ≡ routes_length) × (length out.old ≡ most_entries) }
    ensures { Stops routes.now owner.0 result out.new }
{
    if is_broken(routes, owner) {
        return Err(Refusal::BrokenRoute);
    }
    let row = stops(routes, owner);
    jobs_of(row, out);
    Ok(row.len())
}

// All are jobs below n.
pub fn are_jobs(jobs: &[u16], n: usize) -> bool
    ensures { result ≡ all_below n jobs.now }
{
    jobs.iter().all(|job| usize::from(*job) < n)
}

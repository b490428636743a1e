// What the base says of the plan.
ghost use Rattle.std.specs.Prelude.{◌≡◌, ◌≤◌, length, IfOk};
ghost use Rattle.stores.specs.Headers.{header_of, open_of, lens, Opened};
ghost use Rattle.rules.specs.Sizes.{base_length};

use rules::{Plan, Refusal};

// Jobs, owners and fixed pairs of a loaded store.
#[tactic(auto, using(crate::proofs::Openings::unloaded, crate::proofs::Openings::mismarked, crate::proofs::Openings::headed, crate::proofs::Openings::oversized))]
fn told(base: &[u32]) -> Result<Plan, Refusal>
    requires { base_length ≤ length base.now }
    ensures { result ≡ header_of base.now }
{
    let plan = Plan {
        jobs: base[1],
        owners: base[2],
        fixed: base[3],
    };
    match base[0] {
        0 => Err(Refusal::NotLoaded),
        1 if plan.fits() => Ok(plan),
        _ => Err(Refusal::BadStore),
    }
}

// The header of a store whose slices have these lengths: they have room, then.
pub fn opened(
    base: &[u32],
    spans: usize,
    edges: usize,
    routes: usize,
    times: usize,
) -> Result<Plan, Refusal>
    ensures says { result ≡ open_of (lens (length base.now) spans edges routes times) base.now }
    ensures opens { IfOk result (Opened (lens (length base.now) spans edges routes times)) }
{
    if Plan::short(base.len(), spans, edges, routes, times) {
        return Err(Refusal::ShortStore);
    }
    told(base)
}

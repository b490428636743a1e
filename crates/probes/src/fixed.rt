// Whether an edge is fixed. `from` never falls along the list, so the pairs of a job stand together.
#![tactic(auto, using(crate::proofs::Sought::seeking))]

ghost use Rattle.std.specs.Prelude.{◌≡◌, length};
ghost use Rattle.rules.specs.Moves.{occurs};
ghost use Rattle.rules.specs.Sizes.{pair_up};
ghost use Rattle.probes.specs.Pairs.{Parted, Rising};

// The first place whose `from` is at least u.
fn lower(from: &[u32], u: u32) -> usize
    ensures { Parted from.now u result result }
{
    from.partition_point(|tail| *tail < u)
}

// The pair (u, v) is one of them.
pub fn is_fixed(from: &[u32], to: &[u32], u: u32, v: u32) -> bool
    requires { length from.now ≡ length to.now }
    ensures { Rising from.now → result ≡ occurs (pair_up from.now to.now) u v }
{
    for i in lower(from, u)..from.len() {
        if from[i] != u {
            return false;
        }
        if to[i] == v {
            return true;
        }
    }
    false
}

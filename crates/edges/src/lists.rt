// The rows of the edges, handed out: each is a part of the caller's slice. For words that make no sense it is empty.
ghost use Rattle.std.specs.Prelude.{◌≡◌, ◌+◌, ◌≤◌, length};
ghost use Rattle.rules.specs.Sizes.{edges_length};
ghost use Rattle.edges.specs.Layout.{most_edges, starts_length};
ghost use Rattle.edges.specs.Lists.{Rowed, Successors, Predecessors};

use crate::spans::{PREDECESSORS, Rows, SUCCESSORS, ends};
use rules::{Plan, Senseless};

// Row i.
fn row(e: &[u16], rows: Rows, i: usize) -> &[u16]
    requires { (rows.starts + starts_length ≤ length e.now) × (rows.elements + most_edges ≤ length e.now) }
    ensures { Rowed rows.starts rows.elements i e.now result.now }
{
    if Plan::JOBS <= i {
        return &[];
    }
    let a = rows.elements;
    match ends(e, rows, i) {
        Ok((f, t)) => &e[a + f..a + t],
        Err(Senseless) => &[],
    }
}

// The jobs that job u has an edge to, in stored order.
pub fn successors(e: &[u16], u: usize) -> &[u16]
    requires { length e.now ≡ edges_length }
    ensures { Successors e.now u result.now }
{
    row(e, SUCCESSORS, u)
}

// The jobs that have an edge to job v, in stored order.
pub fn predecessors(e: &[u16], v: usize) -> &[u16]
    requires { length e.now ≡ edges_length }
    ensures { Predecessors e.now v result.now }
{
    row(e, PREDECESSORS, v)
}

// What a move leaves on, seen through the live lists: nothing is copied.
#![tactic(auto)]

ghost use Rattle.std.specs.Prelude.{◌≡◌};
ghost use Rattle.probes.specs.Chains.{tables};
ghost use Rattle.probes.specs.Seen.{Seeable, stays_at};

use crate::chain::holds_in;

// The row of one job's live edges, and the tables of those that are off.
#[derive(Clone, Copy)]
pub struct View<'a> {
    pub live: &'a [u16],
    pub first: &'a [u16],
    pub next: &'a [u16],
    pub head: &'a [u16],
}

// The work, on plain parts: whether the live edge from u at this place of its row stays on.
fn stays(live: &[u16], first: &[u16], next: &[u16], head: &[u16], u: u16, at: usize) -> bool
    requires { Seeable live.now (tables first.now next.now head.now) u at }
    ensures { result ≡ stays_at live.now (tables first.now next.now head.now) u at }
{
    let v = live[at];
    !holds_in(first, next, head, u, v)
}

// The struct is taken apart.
pub fn is_on(view: View, u: u16, place: usize) -> bool
    requires { Seeable view.live.now (tables view.first.now view.next.now view.head.now) u place }
    ensures { result ≡ stays_at view.entry.live.now (tables view.entry.first.now view.entry.next.now view.entry.head.now) u place }
{
    stays(view.live, view.first, view.next, view.head, u, place)
}

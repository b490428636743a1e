// Where the edges of a job lead that are on, one after the other: those of its live row that stay, then those that come on.
#![tactic(auto, using(crate::proofs::Nexts::looking))]

ghost use Rattle.std.specs.Prelude.{◌<◌};
ghost use Rattle.std.specs.Iterator.{YieldsFirst, item_count};
ghost use Rattle.rules.specs.Sizes.{most_jobs};
ghost use Rattle.probes.specs.Aheads.{Ons, Sees, Walks, heads_left};

use crate::chain::Leads;
use crate::on::On;
use crate::view::{View, is_on};
use edges::lists::successors;

#[derive(Drop)]
pub struct Heads<'a> {
    view: View<'a>,
    u: u16,
    // The place of the live row that is next, and what is left of those that come on.
    place: usize,
    plus: Leads<'a>,
}

impl<'a> Iterator for Heads<'a> {
    type Item = u16;

    ghost can_next = { Walks };

    ghost next_gives = { YieldsFirst heads_left };

    ghost remaining = { item_count heads_left };

    fn next(&mut self) -> Option<u16> {
        for place in self.place..self.view.live.len() {
            self.place = place + 1;
            if is_on(self.view, self.u, place) {
                return Some(self.view.live[place]);
            }
        }
        self.plus.next()
    }
}

// Where the edges from u lead that are on.
pub fn heads_from(on: On<'_>, u: u16) -> Heads<'_>
    requires { Ons on × (u < most_jobs) }
    ensures walks { Walks result }
    ensures sees { Sees on.entry.live.now on.entry.off.now on.entry.plus.now u (heads_left result) }
{
    Heads {
        view: on.off.view(successors(on.live, usize::from(u))),
        u,
        place: 0,
        plus: on.plus.leads(u),
    }
}

// The critical blocks of a list of owners, one at a time, and how many there are.
ghost use Rattle.std.specs.Prelude.{◌≡◌, ◌≤◌, length};
ghost use Rattle.rules.specs.Sizes.{edges_length, most_entries, routes_length};
ghost use Rattle.blocks.specs.Arcs.{block_of};
ghost use Rattle.blocks.specs.Overs.{Rowed};

use crate::blocks::{Spot, outset};
use crate::runs::Sight;
use routes::rows::stops;
use rules::{Block, Owner, Refusal};

// Where blocks are sought: the edges and the routes of a plan, how many owners it has, and those that are asked for.
#[derive(Clone, Copy)]
pub struct Asked<'a> {
    pub edges: &'a [u16],
    pub routes: &'a [u16],
    pub all: u32,
    pub owners: &'a [u32],
    pub ghost edged: { length edges.now ≡ edges_length },
    pub ghost routed: { length routes.now ≡ routes_length },
}

// The words of an owner's stops; an owner out of range has none.
fn row_of(routes: &[u16], owner: u32, all: u32) -> &[u16]
    requires { length routes.now ≡ routes_length }
    ensures { Rowed routes.now all owner result.now }
{
    if all <= owner {
        return &routes[..0];
    }
    stops(routes, Owner(owner))
}

// A block of a route of `size` stops.
fn made(owner: u32, size: usize, first: usize, last: usize) -> Block
    requires { (size ≤ most_entries) × (first ≤ most_entries) × (last ≤ most_entries) }
    ensures { result ≡ block_of owner size first last }
{
    Block {
        owner,
        first: first as u32,
        last: last as u32,
        length: size as u32,
    }
}

impl<'a> Asked<'a> {
    ghost use Rattle.blocks.specs.Overs.{Stepped, Counted};
    ghost use Rattle.blocks.specs.Seen.{seen};

    // The next block, from the spot on. Behind the last one the spot lies beyond the owners.
    // A spot, no Option: behind the last block it says where the search has ended, and a caller that knows how many blocks there are asks no more.
    pub fn step(self, sight: Sight, at: Spot) -> Spot
        ensures { Stepped self.entry.edges.now (seen sight.entry) self.entry.routes.now self.entry.all
            self.entry.owners.now at result }
    {
        let mut place = at.place;
        for i in at.owner..self.owners.len() {
            let owner = self.owners[i];
            let row = row_of(self.routes, owner, self.all);
            if let Some(first) = sight.first_critical(row, place) {
                let last = sight.run_end(self.edges, row, first);
                return Spot {
                    block: made(owner, row.len(), first, last),
                    owner: i,
                    place: last + 1,
                };
            }
            place = 0;
        }
        Spot {
            owner: self.owners.len(),
            ..outset()
        }
    }

    // How many blocks there are, if there are no more than `room`.
    pub fn count(self, sight: Sight, room: usize) -> Result<usize, Refusal>
        ensures { Counted self.entry.edges.now (seen sight.entry) self.entry.routes.now self.entry.all
            self.entry.owners.now room result }
    {
        let mut at = outset();
        for k in 0..=room {
            at = self.step(sight, at);
            if self.owners.len() <= at.owner {
                return Ok(k);
            }
        }
        Err(Refusal::ShortAnswer)
    }
}

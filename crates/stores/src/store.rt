// A store that is only read.
ghost use Rattle.std.specs.Prelude.{◌≡◌, IfOk};
ghost use Rattle.stores.specs.Headers.{open_of, Opened};
ghost use Rattle.stores.specs.Held.{held};
ghost use Rattle.stores.specs.Promise.{lent_of};

use crate::header::opened;
use rules::{Plan, Refusal};

#[derive(Clone, Copy)]
pub struct Store<'a> {
    pub base: &'a [u32],
    pub spans: &'a [u64],
    pub edges: &'a [u16],
    pub routes: &'a [u16],
    pub times: &'a [u64],
}

impl<'a> Store<'a> {
    // What its header says of the plan.
    pub fn plan(self) -> Result<Plan, Refusal>
        ensures says { result ≡ open_of (lent_of (held self.entry)) self.entry.base.now }
        ensures opens { IfOk result (Opened (lent_of (held self.entry))) }
    {
        opened(
            self.base,
            self.spans.len(),
            self.edges.len(),
            self.routes.len(),
            self.times.len(),
        )
    }
}

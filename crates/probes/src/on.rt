// What goes together through both checks.
#![tactic(auto)]

use crate::chain::Chain;

// The words of the live edges, the set of those that go off, and the set of those that come on.
#[derive(Clone, Copy)]
pub struct On<'a> {
    pub live: &'a [u16],
    pub off: &'a Chain,
    pub plus: &'a Chain,
}

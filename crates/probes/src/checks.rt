// Both checks of a new route.
#![tactic(auto, using(crate::proofs::Judging::judging))]

ghost use Rattle.std.specs.Prelude.{◌≡◌, ◌≤◌, true, length};
ghost use Rattle.rules.specs.Lists.{all_below};
ghost use Rattle.rules.specs.Sizes.{edges_length, most_entries, most_jobs};
ghost use Rattle.probes.specs.Aheads.{Ons};
ghost use Rattle.probes.specs.Judges.{Both, Checks};

use crate::chain::Chain;
use crate::full::lines_up;
use crate::on::On;
use crate::quick::turns;
use crate::sets::{turned_off, turned_on};

// The two verdicts.
#[derive(Clone, Copy)]
pub struct Checked {
    pub quick: bool,
    pub full: bool,
}

// Where the plan is not cyclic both checks agree; else the quick one looks for a way back.
fn both(on: On, new: &[u16], n: usize, was: bool) -> Checked
    requires { Ons on × (n ≤ most_jobs) × (all_below n new.now ≡ true) }
    ensures { Both on.entry.live.now on.entry.off.now on.entry.plus.now new.now n was result }
{
    if lines_up(on, n) {
        return Checked {
            quick: false,
            full: false,
        };
    }
    if !was {
        return Checked {
            quick: true,
            full: true,
        };
    }
    let quick = turns(on, new, n);
    Checked { quick, full: true }
}

// Of the old and the new jobs of a route, n jobs and the fixed pairs; was: the plan is cyclic.
pub fn check(
    from: &[u32],
    to: &[u32],
    e: &[u16],
    old: &[u16],
    new: &[u16],
    n: usize,
    was: bool,
) -> Checked
    requires { (length from.now ≡ length to.now) × (length e.now ≡ edges_length) × (n ≤ most_jobs)
        × (length old.now ≤ most_entries) × (length new.now ≤ most_entries)
        × (all_below n old.now ≡ true) × (all_below n new.now ≡ true) }
    ensures { Checks from.now to.now e.now old.now new.now n was result }
{
    let mut olds = Chain::new();
    let mut news = Chain::new();
    let mut off = Chain::new();
    let mut plus = Chain::new();
    olds.index(old);
    news.index(new);
    turned_off(from, to, old, &news, &mut off);
    turned_on(e, &olds, new, &mut plus);
    let on = On {
        live: e,
        off: &off,
        plus: &plus,
    };
    both(on, new, n, was)
}

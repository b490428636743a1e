// `crit`: the critical blocks of every owner.
ghost use Rattle.std.specs.Prelude.{◌+◌, ◌*◌, ◌≤◌, min, ◌≡◌, length, take};
ghost use Rattle.rules.specs.Sizes.{most_owners, most_entries};
ghost use Rattle.rules.specs.Calls.{to_blocks};
ghost use Rattle.stores.specs.Held.{held};
ghost use Rattle.text.specs.Answers.{line_length};
ghost use Rattle.lines.specs.Sizes.{longest_answer};
ghost use Rattle.lines.specs.Answers.{Answers, call, up_to};
ghost use Rattle.lines.specs.Parts.{ListsBlocks};

use blocks::blocks::{Found, next, search};
use refresh::store::Store;
use rules::Plan;
use text::answers::{block, line, no};

// The first n owners, rising, and no more than a plan can have. How many.
fn rising(owners: &mut [u32], n: u32) -> usize
    requires { length owners.old ≡ most_owners }
    ensures { (result ≡ min n most_owners) × (take result owners.new ≡ up_to result) }
{
    let all = (n as usize).min(Plan::OWNERS);
    for i in 0..all {
        owners[i] = i as u32;
    }
    all
}

// The line of each block that was found.
fn block_lines(store: Store, owners: &[u32], found: Found, out: &mut [u8], at: usize) -> usize
    requires { (at + line_length 5 4 * most_entries ≤ length out.old) × (found.count ≤ most_entries) }
    ensures { ListsBlocks owners.now
        (held store.entry) found
        out.old at result out.new }
{
    let mut spot = found.spot;
    let mut p = at;
    for _ in 0..found.count {
        spot = next(store, owners, found, spot);
        p = block(out, p, spot.block);
    }
    p
}

// The blocks of a list of owners.
fn blocks_of(store: Store, owners: &[u32], out: &mut [u8]) -> usize
    requires { longest_answer ≤ length out.old }
    ensures { Answers (call (to_blocks owners.now most_entries))
        (held store.entry)
        (held store.entry)
        out.old result out.new }
{
    match search(store, owners, Plan::ENTRIES) {
        Err(r) => no(out, 0, r),
        Ok(found) => {
            let p = line(out, 0, b"blocks", &[found.count as u64]);
            block_lines(store, owners, found, out, p)
        }
    }
}

pub(crate) fn crit(store: Store, owners: u32, out: &mut [u8]) -> usize
    requires { longest_answer ≤ length out.old }
    ensures { Answers (call (to_blocks (up_to (min owners most_owners)) most_entries))
        (held store.entry)
        (held store.entry)
        out.old result out.new }
{
    let mut all = [0u32; Plan::OWNERS];
    let n = rising(&mut all, owners);
    blocks_of(store, &all[..n], out)
}

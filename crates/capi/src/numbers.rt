// A reply in numbers. Each function but the helpers takes what a call of the layers beneath answered, writes its numbers into `nums` (a score)
// and `told` (what else is said), and gives the call's answer for C.
ghost use Rattle.std.specs.Prelude.{◌≡◌, ◌≤◌, List, ◌∷◌, [], ℕ, length, replicate};
ghost use Rattle.std.proofs.lemmas.List.Edits.{sets};
ghost use Rattle.rules.specs.declared.Block.{Block as Record};
ghost use Rattle.rules.specs.Refusals.{number_of};
ghost use Rattle.rules.specs.Scores.{no_change};
ghost use Rattle.stores.specs.Says.{says_scored, says_counted, says_ended, says_started};
ghost use Rattle.refresh.specs.Changes.{says_changed};
ghost use Rattle.refresh.specs.Shows.{says_verdict};
ghost use Rattle.moves.specs.Calls.{says_moved};
ghost use Rattle.blocks.specs.Promise.{says_blocked};
ghost use Rattle.capi.specs.Numbers.{parts_of, Written};

use moves::moved::Moved;
use refresh::put::Change;
use refresh::verdict::Judged;
use rules::{Refusal, Score};

// The places of a score, and of what else is told.
pub const NUMS: usize = 2;

pub const TOLD: usize = 3;

// The refusal's number.
fn code(r: Refusal) -> u32
    ensures { result ≡ number_of r }
{
    u32::from(r.number())
}

// A score or a score change.
fn write(nums: &mut [i64; NUMS], s: Score) -> u32
    ensures { (result ≡ 0) × (nums.new ≡ sets nums.old 0 (parts_of s)) }
{
    nums[0] = s.hard;
    nums[1] = s.soft;
    0
}

// A refused call returns no change.
fn refuse(nums: &mut [i64; NUMS], r: Refusal) -> u32
    ensures { (result ≡ number_of r) × (nums.new ≡ sets nums.old 0 (parts_of no_change)) }
{
    write(nums, Score { hard: 0, soft: 0 });
    code(r)
}

// What else is told, from the first place on.
fn tell(told: &mut [u64; TOLD], row: &[u64]) -> u32
    requires { length row.now ≤ 3 }
    ensures { (result ≡ 0) × (told.new ≡ sets told.old 0 row.now) }
{
    told[..row.len()].copy_from_slice(row);
    0
}

// In each call an arm for the refusal, not a closure for what is told: where a score is told both arms write `nums`, and one alone can be lent it.

// Load.
pub fn scored(answer: Result<Score, Refusal>, nums: &mut [i64; NUMS]) -> u32
    ensures { Written nums.old nums.new [] [] result (says_scored answer) }
{
    match answer {
        Ok(s) => write(nums, s),
        Err(r) => refuse(nums, r),
    }
}

// Reset and retract.
pub fn ended(answer: Result<(), Refusal>, nums: &mut [i64; NUMS]) -> u32
    ensures { Written nums.old nums.new [] [] result (says_ended answer) }
{
    match answer {
        Ok(()) => write(nums, Score { hard: 0, soft: 0 }),
        Err(r) => refuse(nums, r),
    }
}

// Put.
pub fn changed(
    answer: Result<Change, Refusal>,
    nums: &mut [i64; NUMS],
    told: &mut [u64; TOLD],
) -> u32
    ensures { Written nums.old nums.new told.old told.new result (says_changed answer) }
{
    match answer {
        Ok(change) => {
            write(nums, change.score);
            let report = change.report;
            tell(told, &[report.kind(), u64::from(report.visits())])
        }
        Err(refusal) => refuse(nums, refusal),
    }
}

// Score.
pub fn counted(
    answer: Result<(Score, u64), Refusal>,
    nums: &mut [i64; NUMS],
    told: &mut [u64; TOLD],
) -> u32
    ensures { Written nums.old nums.new told.old told.new result (says_counted answer) }
{
    match answer {
        Ok((s, k)) => {
            write(nums, s);
            tell(told, &[k])
        }
        Err(r) => refuse(nums, r),
    }
}

// Verdict.
pub fn judged(answer: Result<Judged, Refusal>, told: &mut [u64; TOLD]) -> u32
    ensures { (out : List ℕ) → Written [] [] told.old told.new result (says_verdict out answer) }
{
    match answer {
        Ok(Judged::LineUp(k)) => tell(told, &[0, k as u64]),
        Ok(Judged::Cycle(k)) => tell(told, &[1, k as u64]),
        Err(r) => code(r),
    }
}

// Starts and blocks: how many.
pub fn listed(answer: Result<usize, Refusal>, told: &mut [u64; TOLD]) -> u32
    ensures started { (out : List ℕ) → Written [] [] told.old told.new result (says_started out answer) }
    ensures blocked { (out : List Record) → Written [] [] told.old told.new result (says_blocked out answer) }
{
    match answer {
        Ok(k) => tell(told, &[k as u64]),
        Err(r) => code(r),
    }
}

// A move: both verdicts, and the length of the new route.
pub fn moved(answer: Result<Moved, Refusal>, told: &mut [u64; TOLD]) -> u32
    ensures { (out : List ℕ) → Written [] [] told.old told.new result (says_moved out answer) }
{
    match answer {
        Ok(m) => tell(
            told,
            &[u64::from(m.quick), u64::from(m.full), m.length as u64],
        ),
        Err(r) => code(r),
    }
}

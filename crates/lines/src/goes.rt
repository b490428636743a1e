// `go`: what was typed is loaded. More pairs than the library takes, and durations that are too many, reach it as they are.
ghost use Rattle.std.specs.Prelude.{◌≤◌, length};
ghost use Rattle.rules.specs.Calls.{to_load};
ghost use Rattle.stores.specs.Promise.{slices, AnyPromise};
ghost use Rattle.stores.specs.Says.{says_scored};
ghost use Rattle.text.specs.Writes.{Fills};
ghost use Rattle.text.specs.Answers.{reply_text, score_length};
ghost use Rattle.lines.specs.Steps.{typing_of, Within};
ghost use Rattle.lines.specs.Serves.{loading_of};

use crate::steps::Typed;
use refresh::load::{Loading, load};
use rules::{Refusal, Score};
use text::answers::{no, ok};
use text::fields::narrow;

pub fn go(
    base: &mut [u32],
    spans: &mut [u64],
    edges: &mut [u16],
    routes: &mut [u16],
    times: &mut [u64],
    plan: Typed,
    durations: &[u64],
    from: &[u32],
    to: &[u32],
) -> Result<Score, Refusal>
    requires { Within plan durations.now from.now to.now }
    ensures { AnyPromise (to_load (loading_of (typing_of plan durations.now from.now to.now)))
        (slices base.old spans.old edges.old routes.old times.old)
        (slices base.new spans.new edges.new routes.new times.new)
        (says_scored result) }
{
    let typed = Loading {
        jobs: narrow(plan.jobs),
        owners: narrow(plan.owners),
        durations: &durations[..plan.durations],
        expected: &[],
        from: &from[..plan.fixed],
        to: &to[..plan.fixed],
    };
    load(base, spans, edges, routes, times, typed)
}

// What `go` prints.
pub fn loaded(answer: Result<Score, Refusal>, out: &mut [u8]) -> usize
    requires { score_length 2 ≤ length out.old }
    ensures { Fills out.old 0 (reply_text (says_scored answer)) (score_length 2) result out.new }
{
    match answer {
        Err(r) => no(out, 0, r),
        Ok(s) => ok(out, s),
    }
}

// Events on a trace: a discontinuity or an activity is counted, appended and reported, or refused with nothing changed.
//
// Demand 3 holds of these two entries. The contract of each is one equation: the answer, the message buffer, the new length
// and the report buffer are those of the meaning's `event` on what the entry was given. The theorem `demand3` is about runs
// of that same `event`, so a caller that hands message, length and report buffer on from call to call gets, call for call,
// the answers and states that the theorem speaks of.
#![tactic(auto)]

mod entered;
mod group;
mod written;

ghost use Rattle.std.specs.Prelude.{◌≡◌};
ghost use Rattle.meaning.specs.Event.{event};
ghost use Rattle.verdict.specs.Plans.{activity_of};
ghost use Rattle.event.specs.Events.{outcome, state, Discontinues};

use attributes::{DISCONTINUITY_COUNT, Terms};
use entered::{VALUE, enter};
use group::group_ok;
use refusals::Refusal;
use trace::trace_of;
use verdict::{Done, Level, Settings, decide, plan_activity, plan_discontinuity};
use wire::put_number;

// A DISCONTINUITY: DiscontinuityCount rises by one, and that number alone is written. Of its settings only the layout plays a part.
pub fn discontinuity(
    buf: &mut [u8],
    len: usize,
    sheet: [u32; 8],
    settings: Settings,
) -> Result<Done, Refusal>
    ensures { Discontinues sheet settings buf.old len result buf.new }
{
    let layout = settings.layout;
    let traced = trace_of(buf, len, Terms { layout, sheet }, 0)?;
    let done = decide(traced.values, plan_discontinuity(), 0, len, buf.len(), 0)?;
    put_number(
        buf,
        traced.places[DISCONTINUITY_COUNT] + VALUE,
        traced.values[DISCONTINUITY_COUNT] + 1,
    );
    Ok(done)
}

// AN ACTIVITY with its level, the lent group, whether reports are asked for, and its settings. All refusals
// come before the first byte is written.
pub fn activity(
    buf: &mut [u8],
    len: usize,
    sheet: [u32; 8],
    level: Level,
    group: &[u8],
    asked: bool,
    settings: Settings,
    report: &mut [u8],
) -> Result<Done, Refusal>
    ensures { outcome result len buf.new report.new ≡ event sheet (state buf.old len report.old) (activity_of level group.now asked settings) }
{
    let layout = settings.layout;
    let traced = trace_of(buf, len, Terms { layout, sheet }, 0)?;
    if !group_ok(group) {
        return Err(Refusal::BadGroup);
    }
    let plan = plan_activity(traced.values, level, asked, settings);
    enter(buf, len, layout, traced, plan, group, report)
}

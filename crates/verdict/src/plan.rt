// What is due for an event: the counter that is to rise, and whether the group is to be appended and reported.
ghost use Rattle.std.specs.Prelude.{◌≡◌, not, ◌&&◌, ◌||◌};
ghost use Rattle.meaning.specs.Event.{rank, unrecorded_for_level, recorded_in};
ghost use Rattle.verdict.specs.Plans.{level_of, counter_of, PlansDiscontinuity, PlansActivity, Index};

use attributes::{
    ACCUMULATE, DETAIL, DISCONTINUITY_COUNT, MQROUTE_ACCUMULATE_NONE, MQROUTE_DETAIL_HIGH,
    MQROUTE_DETAIL_LOW, MQROUTE_DETAIL_MEDIUM, RECORDED_ACTIVITIES, UNRECORDED_ACTIVITIES,
};
use layout::Layout;

// The level of an activity.
#[derive(Clone, Copy, Debug, PartialEq, Eq)]
pub enum Level {
    Low,
    Medium,
    High,
}

impl Level {
    // The level as a value of Detail.
    fn rank(self) -> u32
        ensures { result ≡ rank (level_of self) }
    {
        match self {
            Level::Low => MQROUTE_DETAIL_LOW,
            Level::Medium => MQROUTE_DETAIL_MEDIUM,
            Level::High => MQROUTE_DETAIL_HIGH,
        }
    }
}

// What the queue manager does: activity recording, trace-route messaging; and how the trace is laid out.
#[derive(Clone, Copy, Debug, PartialEq, Eq)]
pub struct Settings {
    pub recording: bool,
    pub messaging: bool,
    pub layout: Layout,
}

// The counters of a trace.
#[derive(Clone, Copy, Debug, PartialEq, Eq)]
pub enum Counter {
    Recorded,
    Unrecorded,
    Discontinuities,
}

impl Counter {
    // Where the counter stands among the eight attributes.
    pub fn index(self) -> usize
        ensures { Index (counter_of self) result }
    {
        match self {
            Counter::Recorded => RECORDED_ACTIVITIES,
            Counter::Unrecorded => UNRECORDED_ACTIVITIES,
            Counter::Discontinuities => DISCONTINUITY_COUNT,
        }
    }
}

#[derive(Clone, Copy, Debug, PartialEq, Eq)]
pub struct Plan {
    pub counter: Counter,
    pub appends: bool,
    pub reports: bool,
}

// An activity whose level is higher than Detail is left unrecorded, whatever is asked for.
#[tactic(auto, unfolding(meaning::specs::Event::unrecorded_for_level))]
fn unrecorded_for_level(level: Level, detail: u32) -> bool
    ensures { result ≡ unrecorded_for_level (level_of level) detail }
{
    detail < level.rank()
}

// An activity that is not skipped is reported, or accumulated, if that is wanted and the queue manager does it.
fn is_due(skipped: bool, wanted: bool, does: bool) -> bool
    ensures { result ≡ (not skipped && (wanted && does)) }
{
    !skipped && wanted && does
}

// An activity is recorded if it is reported or accumulated.
fn counter_of(reports: bool, appends: bool) -> Counter
    ensures { counter_of result ≡ recorded_in (reports || appends) }
{
    if reports || appends {
        Counter::Recorded
    } else {
        Counter::Unrecorded
    }
}

// What is due for a discontinuity: it is counted.
#[tactic(auto, unfolding(meaning::specs::Event::plan_of))]
pub fn plan_discontinuity() -> Plan
    ensures { PlansDiscontinuity result }
{
    Plan {
        counter: Counter::Discontinuities,
        appends: false,
        reports: false,
    }
}

// What is due for an activity, by the values of the trace. The group itself plays no part.
#[tactic(auto, unfolding(meaning::specs::Event::plan_of, meaning::specs::Event::reported, meaning::specs::Event::accumulated))]
pub fn plan_activity(values: [u32; 8], level: Level, asked: bool, settings: Settings) -> Plan
    ensures { PlansActivity result values level asked settings }
{
    let skipped = unrecorded_for_level(level, values[DETAIL]);
    let reports = is_due(skipped, asked, settings.recording);
    let accumulate = values[ACCUMULATE] != MQROUTE_ACCUMULATE_NONE;
    let appends = is_due(skipped, accumulate, settings.messaging);
    Plan {
        counter: counter_of(reports, appends),
        appends,
        reports,
    }
}

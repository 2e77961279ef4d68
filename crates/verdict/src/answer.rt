// Whether an event may be done: its answer, found before any byte is written.
ghost use Rattle.std.specs.Prelude.{◌≡◌, not, ◌&&◌, ◌+◌, ◌≤◌, ◌<◌, leb};
ghost use Rattle.meaning.specs.Layout.{room_for};
ghost use Rattle.meaning.specs.Event.{counter_sum, over_limit, reply_owed, report_length, done_by, decide as decide_on};
ghost use Rattle.verdict.specs.Plans.{planned, done_of, answer_of};

use crate::plan::{Counter, Plan};
use attributes::{
    ACCUMULATE, DISCONTINUITY_COUNT, MAX_ACTIVITIES, MQROUTE_ACCUMULATE_AND_REPLY,
    RECORDED_ACTIVITIES, UNRECORDED_ACTIVITIES,
};
use layout::{HEADER, MOST_BYTES};
use refusals::Refusal;

const MOST_COUNT: u32 = 2147483647;

// What an accepted event did: the counter that rose, whether the group was appended, the report's length or, as the definition
// `done_by` has it, 0, and the message's length now.
#[derive(Clone, Copy, Debug, PartialEq, Eq)]
pub struct Done {
    pub counter: Counter,
    pub appended: bool,
    pub report: usize,
    pub message: usize,
}

// The three counters' sum, which 32 bits would not hold.
#[tactic(auto, unfolding(meaning::specs::Event::counter_sum))]
fn total(values: [u32; 8]) -> u64
    ensures { (result ≡ counter_sum values) × (result < 12884901888) }
{
    u64::from(values[RECORDED_ACTIVITIES])
        + u64::from(values[UNRECORDED_ACTIVITIES])
        + u64::from(values[DISCONTINUITY_COUNT])
}

// A limit is set, and one more activity is above it.
#[tactic(auto, unfolding(meaning::specs::Event::over_limit))]
fn over_limit(values: [u32; 8]) -> bool
    ensures { result ≡ over_limit values }
{
    let limit = u64::from(values[MAX_ACTIVITIES]);
    limit != 0 && limit < total(values) + 1
}

// A trace that is rejected for its limit is owed a reply if it asked for one.
#[tactic(auto, unfolding(meaning::specs::Event::reply_owed))]
fn reply_owed(values: [u32; 8]) -> bool
    ensures { result ≡ reply_owed values }
{
    values[ACCUMULATE] == MQROUTE_ACCUMULATE_AND_REPLY
}

// The group is to be appended, and the message would be longer than its buffer or than 65,536 bytes. That a group has 65,500 bytes
// at most and a message 65,536 was judged where they come from, and is asked by three functions here (`lacks_report` asks the first
// alone): a struct of these two numbers, which only these three see together, would be no plainer.
fn lacks_room(appends: bool, size: usize, len: usize, room: usize) -> bool
    requires { (size ≤ 65500) × (len ≤ 65536) }
    ensures { result ≡ (appends && not (room_for (len + size) room)) }
{
    let longer = len + size;
    appends && (room < longer || MOST_BYTES < longer)
}

// A report is due, and its buffer is too short.
fn lacks_report(reports: bool, size: usize, reserve: usize) -> bool
    requires { size ≤ 65500 }
    ensures { result ≡ (reports && not (leb (report_length size) reserve)) }
{
    reports && reserve < HEADER + size
}

// What is done where nothing speaks against it.
fn carried_out(plan: Plan, size: usize, len: usize) -> Done
    requires { (size ≤ 65500) × (len ≤ 65536) }
    ensures { done_of result ≡ done_by (planned plan) size len }
{
    Done {
        counter: plan.counter,
        appended: plan.appends,
        report: if plan.reports { HEADER + size } else { 0 },
        message: if plan.appends { len + size } else { len },
    }
}

// The answer to an event with a sound group of `size` bytes, on a trace with these values and `len` bytes, in a buffer of
// `room` bytes, with a report buffer of `reserve` bytes.
#[tactic(auto, unfolding(meaning::specs::Event::decide))]
pub fn decide(
    values: [u32; 8],
    plan: Plan,
    size: usize,
    len: usize,
    room: usize,
    reserve: usize,
) -> Result<Done, Refusal>
    requires { (size ≤ 65500) × (len ≤ 65536) }
    ensures { answer_of result ≡ decide_on values (planned plan) size len room reserve }
{
    if over_limit(values) {
        return Err(Refusal::MaxActivities(reply_owed(values)));
    }
    if values[plan.counter.index()] == MOST_COUNT {
        return Err(Refusal::CounterFull);
    }
    if lacks_room(plan.appends, size, len, room) {
        return Err(Refusal::NoRoom);
    }
    if lacks_report(plan.reports, size, reserve) {
        return Err(Refusal::ReportTooShort);
    }
    Ok(carried_out(plan, size, len))
}

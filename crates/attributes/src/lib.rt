// The eight attributes by themselves: the sheet of their identifiers, the terms of a trace, the ranges of their values, and what
// the values decide about forwarding and arrival.
#![tactic(auto)]

mod decisions;
mod names;
mod ranges;
mod sheet;
mod terms;

pub use decisions::{Decision, arrive_by, forward_by};
pub use names::{
    ACCUMULATE, DETAIL, DISCONTINUITY_COUNT, MAX_ACTIVITIES, MQGACF_ACTIVITY, MQGACF_TRACE_ROUTE,
    MQROUTE_ACCUMULATE_AND_REPLY, MQROUTE_ACCUMULATE_NONE, MQROUTE_DETAIL_HIGH, MQROUTE_DETAIL_LOW,
    MQROUTE_DETAIL_MEDIUM, RECORDED_ACTIVITIES, UNRECORDED_ACTIVITIES,
};
pub use ranges::{any_bit, in_range};
pub use sheet::sheet_ok;
pub use terms::Terms;

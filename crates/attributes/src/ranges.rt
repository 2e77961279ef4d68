// The ranges of the eight attributes. Masks test the bits of Forward and Deliver in a 32-bit value.
ghost use Rattle.std.specs.Prelude.{◌≡◌};
ghost use Rattle.meaning.specs.Structure.{small};
ghost use Rattle.meaning.specs.Trace.{any_bit, one_bit, detail_ok, accumulate_ok, in_range};

use crate::names::{
    ACCUMULATE, DELIVER, DETAIL, DISCONTINUITY_COUNT, FORWARD, MAX_ACTIVITIES,
    MQROUTE_ACCUMULATE_AND_REPLY, MQROUTE_ACCUMULATE_IN_MSG, MQROUTE_ACCUMULATE_NONE,
    MQROUTE_DELIVER_NO, MQROUTE_DELIVER_YES, MQROUTE_DETAIL_HIGH, MQROUTE_DETAIL_LOW,
    MQROUTE_DETAIL_MEDIUM, MQROUTE_FORWARD_ALL, MQROUTE_FORWARD_IF_SUPPORTED, RECORDED_ACTIVITIES,
    UNRECORDED_ACTIVITIES,
};
use structure::TWO_TO_31;

// Some bit of the mask is set.
#[tactic(auto, unfolding(meaning::specs::Trace::any_bit))]
pub fn any_bit(x: u32, mask: u32) -> bool
    ensures { result ≡ any_bit mask x }
{
    x & mask != 0
}

// Exactly one of two bits is set; other bits are ignored.
#[tactic(auto, unfolding(meaning::specs::Trace::one_bit))]
fn one_bit(x: u32, first: u32, second: u32) -> bool
    ensures { result ≡ one_bit first second x }
{
    any_bit(x, first) != any_bit(x, second)
}

#[tactic(auto, unfolding(meaning::specs::Trace::detail_ok))]
fn detail_ok(x: u32) -> bool
    ensures { result ≡ detail_ok x }
{
    matches!(
        x,
        MQROUTE_DETAIL_LOW | MQROUTE_DETAIL_MEDIUM | MQROUTE_DETAIL_HIGH
    )
}

#[tactic(auto, unfolding(meaning::specs::Trace::accumulate_ok))]
fn accumulate_ok(x: u32) -> bool
    ensures { result ≡ accumulate_ok x }
{
    matches!(
        x,
        MQROUTE_ACCUMULATE_NONE | MQROUTE_ACCUMULATE_IN_MSG | MQROUTE_ACCUMULATE_AND_REPLY
    )
}

fn is_small(x: u32) -> bool
    ensures { result ≡ small x }
{
    x < TWO_TO_31
}

// The eight values are each in range: Detail is low, medium or high; the counters and MaxActivities are small; Accumulate is
// none, in the message, or in the message with reply; Forward is all or if supported; Deliver is yes or no.
#[tactic(auto, unfolding(meaning::specs::Trace::in_range, meaning::specs::Trace::forward_ok, meaning::specs::Trace::deliver_ok))]
pub fn in_range(v: [u32; 8]) -> bool
    ensures { result ≡ in_range v }
{
    detail_ok(v[DETAIL])
        && is_small(v[RECORDED_ACTIVITIES])
        && is_small(v[UNRECORDED_ACTIVITIES])
        && is_small(v[DISCONTINUITY_COUNT])
        && is_small(v[MAX_ACTIVITIES])
        && accumulate_ok(v[ACCUMULATE])
        && one_bit(
            v[FORWARD],
            MQROUTE_FORWARD_ALL,
            MQROUTE_FORWARD_IF_SUPPORTED,
        )
        && one_bit(v[DELIVER], MQROUTE_DELIVER_YES, MQROUTE_DELIVER_NO)
}

// Forwarding and arrival, judged by the eight values of a trace.
ghost use Rattle.std.specs.Prelude.{◌≡◌};
ghost use Rattle.meaning.specs.Decision.{forward_by, arrive_by};
ghost use Rattle.refusals.specs.Refusals.{answered};
ghost use Rattle.attributes.specs.Decisions.{decision_of};

use crate::names::{
    DELIVER, FORWARD, MQROUTE_DELIVER_YES, MQROUTE_FORWARD_IF_SUPPORTED, REJECT_UNSUPPORTED,
};
use crate::ranges::any_bit;
use refusals::Refusal;

// What is done with the message.
#[derive(Clone, Copy, Debug, PartialEq, Eq)]
pub enum Decision {
    Forward,
    PutLocally,
    Withhold,
}

// Forwarding to a remote manager that supports trace-route messaging or does not. If it does not, Deliver is judged first,
// and where Deliver says yes Forward is not looked at.
#[tactic(auto, unfolding(meaning::specs::Decision::forward_by, meaning::specs::Decision::unrecognised, meaning::specs::Decision::deliver_yes, meaning::specs::Decision::if_supported))]
pub fn forward_by(v: [u32; 8], supporting: bool) -> Result<Decision, Refusal>
    ensures { answered decision_of result ≡ forward_by v supporting }
{
    if !supporting {
        if any_bit(v[DELIVER], REJECT_UNSUPPORTED) {
            return Err(Refusal::UnsupportedDelivery);
        }
        if any_bit(v[DELIVER], MQROUTE_DELIVER_YES) {
            return Ok(Decision::Forward);
        }
    }
    if any_bit(v[FORWARD], REJECT_UNSUPPORTED) {
        return Err(Refusal::UnsupportedForwarding);
    }
    if !supporting && any_bit(v[FORWARD], MQROUTE_FORWARD_IF_SUPPORTED) {
        return Err(Refusal::NotForwarded);
    }
    Ok(Decision::Forward)
}

// Arrival at the queue manager that the message is for.
#[tactic(auto, unfolding(meaning::specs::Decision::arrive_by, meaning::specs::Decision::unrecognised, meaning::specs::Decision::deliver_yes))]
pub fn arrive_by(v: [u32; 8]) -> Result<Decision, Refusal>
    ensures { answered decision_of result ≡ arrive_by v }
{
    let deliver = v[DELIVER];
    if any_bit(deliver, REJECT_UNSUPPORTED) {
        return Err(Refusal::UnsupportedDelivery);
    }
    if any_bit(deliver, MQROUTE_DELIVER_YES) {
        Ok(Decision::PutLocally)
    } else {
        Ok(Decision::Withhold)
    }
}

// IBM's feedback codes.
ghost use Rattle.std.specs.Prelude.{◌≡◌};
ghost use Rattle.codes.specs.Feedbacks.{feedback_of};

const MQFB_MAX_ACTIVITIES: u32 = 282;

const MQFB_NOT_FORWARDED: u32 = 283;

const MQFB_UNSUPPORTED_FORWARDING: u32 = 285;

const MQFB_UNSUPPORTED_DELIVERY: u32 = 286;

// The code that goes with a refusal's number, which is the C interface; 0 for none.
#[tactic(auto, unfolding(crate::specs::Feedbacks::feedback_of))]
pub fn feedback_of(refusal: u32) -> u32
    ensures { result ≡ feedback_of refusal }
{
    match refusal {
        10 => MQFB_MAX_ACTIVITIES,
        14 => MQFB_UNSUPPORTED_DELIVERY,
        15 => MQFB_UNSUPPORTED_FORWARDING,
        16 => MQFB_NOT_FORWARDED,
        _ => 0,
    }
}

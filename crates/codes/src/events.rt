// What an event did, in numbers, and the level of an activity by its number.
ghost use Rattle.std.specs.Prelude.{◌≡◌, cond, ◌+◌, ◌*◌, ◌≤◌};
ghost use Rattle.refusals.specs.Refusals.{number_of, place_of, owed};
ghost use Rattle.verdict.specs.Plans.{level_of, answer_of};
ghost use Rattle.codes.specs.Events.{level_in, Brief, Tells};

use crate::code::{given, refused};
use attributes::{MQROUTE_DETAIL_HIGH, MQROUTE_DETAIL_MEDIUM};
use refusals::Refusal;
use verdict::{Done, Level};

// A refusal; 10, which has no place, has 1 there if a reply is owed.
fn denied(r: Refusal) -> u64
    requires { place_of r ≤ 65536 }
    ensures { result ≡ (place_of r + cond (owed r) 1 0) * 32 + number_of r }
{
    refused(r) + u64::from(r.reply_owed()) * 32
}

// What an event did, or the refusal.
pub fn told(found: Result<Done, Refusal>, done: &mut [u64; 4]) -> u64
    requires { Brief (answer_of found) }
    ensures { Tells (answer_of found) done.old result done.new }
{
    match found {
        Err(r) => denied(r),
        Ok(d) => {
            *done = [
                d.counter.index() as u64,
                u64::from(d.appended),
                d.report as u64,
                d.message as u64,
            ];
            given(d.message)
        }
    }
}

// A level by its number, which is Detail's value for it: the C interface. What is neither medium nor high is low, which can be
// recorded under every Detail. (It is no `From`: that would stand with the type, in `verdict`, which knows no numbers of C.)
pub fn level_of(level: u32) -> Level
    ensures { level_of result ≡ level_in level }
{
    match level {
        MQROUTE_DETAIL_MEDIUM => Level::Medium,
        MQROUTE_DETAIL_HIGH => Level::High,
        _ => Level::Low,
    }
}

// The lent Activity group.
ghost use Rattle.std.specs.Prelude.{◌≡◌};
ghost use Rattle.meaning.specs.Event.{group_ok};

use attributes::MQGACF_ACTIVITY;
use structure::MQCFT_GROUP;
use walk::over;
use wire::number_at;

// The fewest bytes of a group, and the most: with a report's header it is still a message.
const LEAST: usize = 16;

const MOST: usize = 65500;

// The lent bytes are one whole Activity group, sound as if top-level, with nothing after it.
#[tactic(auto, unfolding(meaning::specs::Event::group_ok))]
pub fn group_ok(group: &[u8]) -> bool
    ensures { result ≡ group_ok group.now }
{
    let len = group.len();
    if !(LEAST..=MOST).contains(&len) {
        return false;
    }
    if number_at(group, 0) != MQCFT_GROUP || number_at(group, 8) != MQGACF_ACTIVITY {
        return false;
    }
    over(group, 0, 1, 1).is_ok_and(|passed| passed.behind == len)
}

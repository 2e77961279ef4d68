// The top-level groups of a message: the TraceRoute group, and the n-th Activity group.
ghost use Rattle.std.specs.Prelude.{◌≡◌};
ghost use Rattle.meaning.specs.Walk.{walk};
ghost use Rattle.meaning.specs.Bytes.{whole};
ghost use Rattle.refusals.specs.Refusals.{answer};
ghost use Rattle.structure.specs.Rows.{row_of};
ghost use Rattle.trace.specs.Groups.{count_row, CountableGroup, surveyed};

use crate::passing::{Crossing, pass};
use attributes::{MQGACF_ACTIVITY, MQGACF_TRACE_ROUTE};
use refusals::Refusal;
use structure::{MQCFT_GROUP, Row};

// A group: its place, the place of what is inside it, its length with all of that, and how many direct members it has. All are 0
// where there is none, and no Option says so: the definition `activity_group`, which the clause of `activities::activity_span` is
// about, has the empty part at 0 for none, and a route that is not there is refused by its count.
#[derive(Clone, Copy, Debug, PartialEq, Eq)]
pub struct Group {
    pub place: usize,
    pub inside: usize,
    pub length: usize,
    pub members: u32,
}

// How many top-level groups with an identifier there are, and one of them.
#[derive(Clone, Copy, Debug, PartialEq, Eq)]
pub struct Counted {
    pub count: usize,
    pub group: Group,
}

// The place behind the top-level structures; the TraceRoute groups, with the first of them; and the Activity groups, with the
// one that was asked for.
#[derive(Clone, Copy, Debug, PartialEq, Eq)]
pub struct Tops {
    pub behind: usize,
    pub routes: Counted,
    pub activities: Counted,
}

const NONE_YET: Counted = Counted {
    count: 0,
    group: Group {
        place: 0,
        inside: 0,
        length: 0,
        members: 0,
    },
};

// One more group, which ends before `behind`: it counts if it has the identifier, and is kept if it is the n-th of those.
#[tactic(auto, unfolding(crate::specs::Groups::count_row))]
fn count_row(c: Counted, id: u32, n: usize, row: Row, behind: usize) -> Counted
    requires { CountableGroup c (row_of row) behind }
    ensures { result ≡ count_row id n c (row_of row) behind }
{
    if row.parameter != id {
        return c;
    }
    let count = c.count + 1;
    if c.count != n {
        return Counted { count, ..c };
    }
    Counted {
        count,
        group: Group {
            place: row.place,
            inside: row.place + row.size as usize,
            length: behind - row.place,
            members: row.members,
        },
    }
}

// Goes over the top-level structures, `count` of them from `first` on, and over all that is inside them.
#[tactic(auto, using(crate::proofs::Surveys::survey_start))]
pub fn survey(s: &[u8], first: usize, count: u32, n: usize) -> Result<Tops, Refusal>
    ensures { answer result ≡ surveyed n (walk (whole s.now) first 1 count) }
{
    let mut at = first;
    let mut routes = NONE_YET;
    let mut activities = NONE_YET;
    for _ in 0..count {
        // a match, as in `pass`, which says why
        match pass(s, at, 1) {
            Err(r) => return Err(r),
            Ok(Crossing { row, behind }) => {
                // asked once, out here: what is counted then stays in registers while other structures are gone over
                if row.kind == MQCFT_GROUP {
                    routes = count_row(routes, MQGACF_TRACE_ROUTE, 0, row, behind);
                    activities = count_row(activities, MQGACF_ACTIVITY, n, row, behind);
                }
                at = behind;
            }
        }
    }
    Ok(Tops {
        behind: at,
        routes,
        activities,
    })
}

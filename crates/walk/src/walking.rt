// The walk over structures and all that is inside them. It is compiled for each counter, so that those who only ask where it ends
// carry no counts: to carry an array into and out of each call takes longer than the walk itself.
ghost use Rattle.std.specs.Prelude.{◌≡◌, ◌-◌, length};
ghost use Rattle.meaning.specs.Bytes.{whole};
ghost use Rattle.meaning.specs.Walk.{walk};
ghost use Rattle.refusals.specs.Refusals.{answered};
ghost use Rattle.walk.specs.Counters.{counting, reached_of};

use crate::counter::Counter;
use refusals::Refusal;
use structure::{Extent, extent_at};
use wire::number_at;

// The place behind the last structure, and what was counted up to there.
#[derive(Clone, Copy, Debug, PartialEq, Eq)]
pub struct Reached<C> {
    pub behind: usize,
    pub seen: C,
}

// Walks over `count` structures from `place` on, of this depth, and over all that is inside them; or the first fault. The
// counter goes in, and comes back with each structure counted.
pub fn walk<C: Counter>(
    s: &[u8],
    place: usize,
    depth: u32,
    count: u32,
    mut seen: C,
) -> Result<Reached<C>, Refusal>
    requires { C.Room seen (length s.now - place) }
    ensures { answered reached_of result ≡ counting C.counted seen (walk (whole s.now) place depth count) }
{
    let mut behind = place;
    for _ in 0..count {
        // a match: with a `?` the walk over a flat message takes 1.4 times as long
        match extent_at(s, behind, depth) {
            Err(r) => return Err(r),
            Ok(Extent { size, members }) => {
                seen.count(number_at(s, behind));
                behind += size as usize;
                if members != 0 {
                    // a group: its members come first
                    let inner = walk(s, behind, depth + 1, members, seen)?;
                    behind = inner.behind;
                    seen = inner.seen;
                }
            }
        }
    }
    Ok(Reached { behind, seen })
}

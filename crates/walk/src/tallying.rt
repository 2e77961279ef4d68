// The walk that counts structures by their types. Only the tally needs the counts: all others pass over structures without them.
ghost use Rattle.std.specs.Prelude.{◌≡◌};
ghost use Rattle.meaning.specs.Bytes.{whole};
ghost use Rattle.meaning.specs.Walk.{walk};
ghost use Rattle.refusals.specs.Refusals.{answered};
ghost use Rattle.walk.specs.Tallies.{tallied, walked_of, Walkable};

use crate::walking::{Reached, walk};
use refusals::Refusal;

// Walks over `count` structures from `place` on, of this depth, and over all that is inside them; or the first fault. The
// counts for the types 0 to 26 go in, and come back raised at one place for each structure.
pub fn siblings(
    s: &[u8],
    place: usize,
    depth: u32,
    count: u32,
    tally: [u32; 27],
) -> Result<Reached<[u32; 27]>, Refusal>
    requires { Walkable s.now place tally }
    ensures { answered walked_of result ≡ tallied tally (walk (whole s.now) place depth count) }
{
    walk(s, place, depth, count, tally)
}

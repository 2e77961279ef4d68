// Passing over structures and all that is inside them: the walk that only numbers them, for all who ask where it ends.
ghost use Rattle.std.specs.Prelude.{◌≡◌};
ghost use Rattle.meaning.specs.Bytes.{whole};
ghost use Rattle.meaning.specs.Walk.{walk};
ghost use Rattle.refusals.specs.Refusals.{answered};
ghost use Rattle.walk.specs.Passings.{passage, passed_of};

use crate::walking::{Reached, walk};
use refusals::Refusal;

// Passes over `count` structures from `place` on, of this depth, and over all that is inside them, and numbers them, nested ones
// included; or the first fault.
pub fn over(s: &[u8], place: usize, depth: u32, count: u32) -> Result<Reached<usize>, Refusal>
    ensures { answered passed_of result ≡ passage (walk (whole s.now) place depth count) }
{
    walk(s, place, depth, count, 0usize)
}

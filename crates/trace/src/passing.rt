// Passing over a structure with all that is inside it.
ghost use Rattle.std.specs.Prelude.{◌≡◌, true};
ghost use Rattle.meaning.specs.Answer.{accepted};
ghost use Rattle.meaning.specs.Bytes.{whole};
ghost use Rattle.refusals.specs.Refusals.{answered};
ghost use Rattle.trace.specs.Passing.{crossing_of, crossed, behind_of, is_sound};

use refusals::Refusal;
use structure::{Extent, MQCFT_GROUP, Row, extent_at};
use walk::over;
use wire::number_at;

// A structure, and the place behind all that is inside it.
#[derive(Clone, Copy, Debug, PartialEq, Eq)]
pub struct Crossing {
    pub row: Row,
    pub behind: usize,
}

// Passes over the structure at `place`, of this depth, and all that is inside it; or gives the first fault there.
#[tactic(auto, using(crate::proofs::Turns::extent_fits, crate::proofs::Turns::extent_least, crate::proofs::Turns::extent_shallow))]
pub fn pass(s: &[u8], place: usize, depth: u32) -> Result<Crossing, Refusal>
    ensures { answered crossing_of result ≡ crossed (whole s.now) place depth }
{
    // a match, as in the survey: with a `?` in either place the survey of a flat message takes twice as long
    match extent_at(s, place, depth) {
        Err(r) => Err(r),
        Ok(Extent { size, members }) => {
            let row = Row {
                depth,
                place,
                kind: number_at(s, place),
                parameter: number_at(s, place + 8),
                size,
                members,
            };
            let next = place + size as usize;
            if members == 0 {
                return Ok(Crossing { row, behind: next });
            }
            let inner = over(s, next, depth + 1, members)?;
            Ok(Crossing {
                row,
                behind: inner.behind,
            })
        }
    }
}

// The place behind a structure that is known to be sound, and behind all that is inside it. Its fields are read and not checked
// again: whoever goes over the members of a group that was surveyed asks this of each. (That they are sound is a fact of bytes, place,
// depth and count together, none of which the others always go with: so it stands in four contracts, and in no type.)
#[tactic(auto, using(crate::proofs::Skipping::known_room, crate::proofs::Skipping::known_fits))]
pub fn behind(s: &[u8], place: usize, depth: u32) -> usize
    requires { is_sound (crossed (whole s.now) place depth) ≡ true }
    ensures { behind_of (crossed (whole s.now) place depth) ≡ accepted result }
{
    let next = place + number_at(s, place + 4) as usize;
    if number_at(s, place) != MQCFT_GROUP {
        return next;
    }
    match over(s, next, depth + 1, number_at(s, place + 12)) {
        Ok(inner) => inner.behind,
        // the members of a sound group are sound
        Err(_) => unreachable!(),
    }
}

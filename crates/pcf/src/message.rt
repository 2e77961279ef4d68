// Whole messages: check, tally, and the walk one structure at a time.
ghost use Rattle.std.specs.Prelude.{◌≡◌, ◌<◌, sum};
ghost use Rattle.meaning.specs.Message.{header_ok, check, step};
ghost use Rattle.refusals.specs.Refusals.{answer, answered};
ghost use Rattle.layout.specs.Layouts.{layout_of, part_at};
ghost use Rattle.pcf.specs.Messages.{opened, opening_of, stepped_of, structures_of, structure_count, Reaches, HeaderRead, RowsTallied, CountedAs, TalliedAs};

use layout::{HEADER, Layout, Part, locate};
use refusals::Refusal;
use structure::{Row, TWO_TO_31, structure_at};
use walk::{over, siblings};
use wire::number_at;

// The part of a message, and its header's number of structures, the ParameterCount.
#[derive(Clone, Copy, Debug, PartialEq, Eq)]
pub struct Opening {
    pub part: Part,
    pub count: u32,
}

// The number of structures, nested ones included, and how many there are of each type, 0 to 26.
#[derive(Clone, Copy, Debug, PartialEq, Eq)]
struct Counts {
    number: u32,
    counts: [u32; 27],
}

// The check's answer, and beside it the counts, for the rules say what they are of a refused message too: all 0.
#[derive(Clone, Copy, Debug, PartialEq, Eq)]
pub struct Tallied {
    pub answer: Result<u32, Refusal>,
    pub counts: [u32; 27],
}

// A place in a message, and the depth of the structure there. (Where structures are walked over the two are apart, as in the
// definitions `structure_at` and `walk`: the place goes on at each structure, the depth stays.)
#[derive(Clone, Copy, Debug, PartialEq, Eq)]
pub struct Cursor {
    pub place: usize,
    pub depth: u32,
}

// One structure and the place behind it.
#[derive(Clone, Copy, Debug, PartialEq, Eq)]
pub struct Stepped {
    pub row: Row,
    pub next: usize,
}

// StrucLength 36, Version 1 to 3, ParameterCount below 2^31.
#[tactic(auto, using(meaning::proofs::Parts::num_part), unfolding(meaning::specs::Message::header_ok))]
fn header_ok(msg: &[u8], opening: Opening) -> bool
    requires { HeaderRead msg.now opening }
    ensures { result ≡ header_ok (part_at msg.now opening.part) }
{
    let start = opening.part.start;
    let version = number_at(msg, start + 8);
    number_at(msg, start + 4) == 36 && 1 <= version && version <= 3 && opening.count < TWO_TO_31
}

// What comes before the structures: the part and the ParameterCount of its sound header, or 1, 18 or 2.
#[tactic(auto, using(crate::proofs::Openings::reaches, meaning::proofs::Parts::num_part), unfolding(crate::specs::Messages::opened, crate::specs::Messages::opened_in))]
pub fn opened(msg: &[u8], len: usize, layout: Layout) -> Result<Opening, Refusal>
    ensures { answered (opening_of msg.now) result ≡ opened (layout_of layout) msg.now len }
{
    let part = locate(msg, len, layout)?;
    let count = number_at(msg, part.start + 32);
    let opening = Opening { part, count };
    if header_ok(msg, opening) {
        Ok(opening)
    } else {
        Err(Refusal::BadHeader)
    }
}

// The number of structures of a part with a sound header, which they fill, or 3, 4 or 5. The check and the listing ask it, each
// behind `opened`: so the check is one function with one caller, which is compiled into that.
#[tactic(auto, using(crate::proofs::Closes::number_fault))]
pub fn structure_count(msg: &[u8], opening: Opening) -> Result<u32, Refusal>
    requires { Reaches msg.now opening.part }
    ensures { answer result ≡ structure_count (part_at msg.now opening.part) opening.count }
{
    let part = opening.part;
    let passed = over(&msg[..part.end], part.start + HEADER, 1, opening.count)?;
    if passed.behind == part.end {
        Ok(passed.seen as u32)
    } else {
        Err(Refusal::LeftOver(passed.behind))
    }
}

// CHECK: the number of structures of a message, or 1, 18, or 2 to 5.
#[tactic(auto, using(crate::proofs::Openings::opened_reaches, crate::proofs::Openings::scan_opened), unfolding(meaning::specs::Message::check))]
pub fn check(msg: &[u8], len: usize, layout: Layout) -> Result<u32, Refusal>
    ensures { answer result ≡ check (layout_of layout) msg.now len }
{
    structure_count(msg, opened(msg, len, layout)?)
}

// The number of structures that were counted.
fn total(counts: [u32; 27]) -> u32
    requires { sum counts < 65536 }
    ensures { result ≡ sum counts }
{
    counts.iter().sum()
}

// A part with a sound header: all its structures are walked over, and nothing may follow. What it shares with `structure_count` is
// that last test; one function for both would have to carry the counts for the check too.
fn structures(msg: &[u8], opening: Opening) -> Result<Counts, Refusal>
    requires { Reaches msg.now opening.part }
    ensures { RowsTallied (structures_of (part_at msg.now opening.part) opening.count) result }
{
    let part = opening.part;
    let walked = siblings(
        &msg[..part.end],
        part.start + HEADER,
        1,
        opening.count,
        [0; 27],
    )?;
    if walked.behind != part.end {
        return Err(Refusal::LeftOver(walked.behind));
    }
    let counts = walked.seen;
    Ok(Counts {
        number: total(counts),
        counts,
    })
}

// How many structures of each type a message has, and in all; or 1, 18, or 2 to 5, as the check answers.
#[tactic(auto, using(crate::proofs::Openings::opened_reaches, crate::proofs::Openings::scan_opened), unfolding(meaning::specs::Message::check, meaning::specs::Message::tally))]
fn counted(msg: &[u8], len: usize, layout: Layout) -> Result<Counts, Refusal>
    ensures { CountedAs (layout_of layout) msg.now len result }
{
    structures(msg, opened(msg, len, layout)?)
}

// TALLY: how many structures of each type a message has, beside the check's answer.
pub fn tally(msg: &[u8], len: usize, layout: Layout) -> Tallied
    ensures { TalliedAs (layout_of layout) msg.now len result }
{
    match counted(msg, len, layout) {
        Ok(found) => {
            // an array leaves a struct by a variable: the borrow checker knows no other way
            let counts = found.counts;
            Tallied {
                answer: Ok(found.number),
                counts,
            }
        }
        Err(r) => Tallied {
            answer: Err(r),
            counts: [0; 27],
        },
    }
}

// ONE STRUCTURE AT A TIME: the structure at any place, taken to have any depth, and the place behind it; or 1 or 18, then 3 or
// 4. For a group that is the place of its first member.
#[tactic(auto, using(crate::proofs::Openings::reaches, crate::proofs::Openings::structure_part), unfolding(meaning::specs::Message::step))]
pub fn step(msg: &[u8], len: usize, layout: Layout, at: Cursor) -> Result<Stepped, Refusal>
    ensures { answered stepped_of result ≡ step (layout_of layout) msg.now len at.place at.depth }
{
    let part = locate(msg, len, layout)?;
    let row = structure_at(&msg[..part.end], at.place, at.depth)?;
    Ok(Stepped {
        row,
        next: at.place + row.size as usize,
    })
}

// Check, tally, listing, and one structure at a time.
ghost use Rattle.std.specs.Prelude.{◌≡◌};
ghost use Rattle.meaning.specs.Message.{check};
ghost use Rattle.codes.specs.Codes.{code};
ghost use Rattle.codes.specs.Options.{layout_in};
ghost use Rattle.gwirandol.specs.Structures.{Tallies, Lists, Steps};

use codes::{coded, layout_of};
use pcf::{Cursor, Stepped};

// CHECK: the number of structures, or 1, 18, or 2 to 5.
#[tactic(auto, using(crate::proofs::Reach::check_fits))]
#[unsafe(no_mangle)]
pub extern "C" fn gw_check(buffer: &[u8], length: usize, options: u32) -> u64
    ensures { result ≡ code (check (layout_in options) buffer.now length) }
{
    coded(pcf::check(buffer, length, layout_of(options)))
}

// TALLY: answers as the check does; one count for each type, all 0 if the message is refused.
#[tactic(auto, using(crate::proofs::Reach::check_fits))]
#[unsafe(no_mangle)]
pub extern "C" fn gw_tally(
    buffer: &[u8],
    length: usize,
    options: u32,
    counts: &mut [u32; 27],
) -> u64
    ensures { Tallies (layout_in options) buffer.now length result counts.new }
{
    let tallied = pcf::tally(buffer, length, layout_of(options));
    // an array leaves a struct by a variable: the borrow checker knows no other way
    let told = tallied.counts;
    *counts = told;
    coded(tallied.answer)
}

// LIST: the text's length, or 1, 18, or 2 to 5. A refusal leaves the text as it was.
#[tactic(auto, using(crate::proofs::Reach::list_fits))]
#[unsafe(no_mangle)]
pub extern "C" fn gw_list(
    buffer: &[u8],
    length: usize,
    options: u32,
    text: &mut [u8; 131072],
) -> u64
    ensures { Lists (layout_in options) buffer.now length text.old result text.new }
{
    coded(listing::list(buffer, length, layout_of(options), text))
}

// ONE STRUCTURE at any place and depth: the row and the place behind it, or 1 or 18, then 3 or 4, with the row as it was. The
// place of 3 and 4 is the one that was asked for, so the answer is the number alone.
#[unsafe(no_mangle)]
pub extern "C" fn gw_step(
    buffer: &[u8],
    length: usize,
    options: u32,
    place: usize,
    depth: u32,
    row: &mut [u64; 7],
) -> u64
    ensures { Steps (layout_in options) buffer.now length place depth row.old result row.new }
{
    match pcf::step(buffer, length, layout_of(options), Cursor { place, depth }) {
        Err(r) => u64::from(r.number()),
        Ok(Stepped { row: s, next }) => {
            *row = [
                u64::from(s.depth),
                s.place as u64,
                u64::from(s.kind),
                u64::from(s.parameter),
                u64::from(s.size),
                u64::from(s.members),
                next as u64,
            ];
            0
        }
    }
}

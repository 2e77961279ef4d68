// The listing of a message as text.
#![tactic(auto)]

mod rows;
mod whole;

ghost use Rattle.std.specs.Prelude.{◌<◌, length};
ghost use Rattle.meaning.specs.Listing.{refusal_line, listing as listing_of};
ghost use Rattle.refusals.specs.Refusals.{number_of, place_of};
ghost use Rattle.layout.specs.Layouts.{layout_of};
ghost use Rattle.text.specs.Prints.{Prints};
ghost use Rattle.text.specs.Wrote.{Wrote};
ghost use Rattle.listing.specs.Entries.{ListedAs};

use layout::Layout;
use pcf::{opened, structure_count};
use refusals::Refusal;
use text::put_refusal;
use whole::put_listing;

// LIST: the listing of the message in the first `len` bytes, written from the buffer's first byte on: the structures of its
// part, and in the header line the whole message's length. The answer is the text's length, or 1, 18, or 2 to 5. A message that
// is refused leaves the buffer as it was, so the check comes first.
#[tactic(auto, using(crate::proofs::Entries::around, crate::proofs::Entries::bytes_there, crate::proofs::Entries::list_checked, pcf::proofs::Openings::opened_reaches))]
pub fn list(
    msg: &[u8],
    len: usize,
    layout: Layout,
    out: &mut [u8; 131072],
) -> Result<usize, Refusal>
    ensures { ListedAs (layout_of layout) msg.now len out.old out.new result }
{
    let opening = opened(msg, len, layout)?;
    let count = structure_count(msg, opening)?;
    let part = opening.part;
    Ok(put_listing(&msg[..part.end], part.start, len as u32, count, out))
}

// The line of a refusal, from the buffer's first byte on.
#[tactic(auto, using(meaning::proofs::Lines::refusal_line_most))]
pub fn refused_line(r: Refusal, out: &mut [u8; 131072]) -> usize
    requires { place_of r < 4294967296 }
    ensures { Wrote out.old 0 (refusal_line (number_of r) (place_of r)) out.new result }
{
    put_refusal(out, 0, r.number(), r.place() as u32)
}

// PRINT: all that the listing program writes for an input. The answer is the text's length.
pub fn print(input: &[u8], layout: Layout, out: &mut [u8; 131072]) -> usize
    ensures { Prints (listing_of (layout_of layout) input.now (length input.now)) out.old out.new result }
{
    match list(input, input.len(), layout, out) {
        Ok(n) => n,
        Err(r) => refused_line(r, out),
    }
}

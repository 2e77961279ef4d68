// The whole listing of a message that was checked.
ghost use Rattle.std.specs.Prelude.{◌≤◌, length};
ghost use Rattle.meaning.specs.Message.{rows_of};
ghost use Rattle.text.specs.Wrote.{Wrote};
ghost use Rattle.listing.specs.Text.{part_from, text_of, Checked};

use crate::rows::put_all;
use layout::HEADER;
use text::{put_end, put_header};
use wire::number_at;

// Writes the header line, the lines of all structures and the last line. The part starts at `start` and ends with the slice,
// so that the places are the message's; `len` is the whole message's length. That they fit is known: a structure has 16 bytes
// or more and a line of 28 or less, so that no listing has more than 131,072 bytes.
pub fn put_listing(s: &[u8], start: usize, len: u32, count: u32, out: &mut [u8]) -> usize
    requires { Checked s.now start count × (131072 ≤ length out.old) }
    ensures { Wrote out.old 0 (text_of (part_from s.now start) len (rows_of (part_from s.now start))) out.new result }
{
    let members = number_at(s, start + 32);
    let head = put_header(
        out,
        0,
        number_at(s, start),
        number_at(s, start + 12),
        members,
        len,
    );
    let body = put_all(s, start + HEADER, 1, members, out, head);
    put_end(out, body.text, count)
}

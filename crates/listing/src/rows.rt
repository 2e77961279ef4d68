// The lines of all structures of a message that was checked. (Text and the place in it are two parameters, as in `text`, which says
// why.)
ghost use Rattle.std.specs.Prelude.{◌≡◌, ◌+◌, ◌≤◌, length};
ghost use Rattle.meaning.specs.Bytes.{whole};
ghost use Rattle.meaning.specs.Walk.{walk};
ghost use Rattle.listing.specs.Rows.{line_at, RowsDue, RowsDone};

use structure::MQCFT_GROUP;
use text::{Line, put_line};
use wire::number_at;

// The place behind the text that was written, and the place behind the structures that it shows.
#[derive(Clone, Copy, Debug, PartialEq, Eq)]
pub struct Behind {
    pub text: usize,
    pub place: usize,
}

// What the line of the structure at `place` shows.
fn line_at(s: &[u8], place: usize, depth: u32) -> Line
    requires { (place + 16 ≤ length s.now) × (length s.now ≤ 65536) }
    ensures { result ≡ line_at s.now place depth }
{
    Line {
        depth,
        place: place as u32,
        kind: number_at(s, place),
        parameter: number_at(s, place + 8),
        size: number_at(s, place + 4),
    }
}

// Writes the line of the structure at `place`, and behind it those of all that is inside.
#[cycle(put_all_put_one)]
fn put_one(s: &[u8], place: usize, depth: u32, out: &mut [u8], at: usize) -> Behind
    requires { RowsDue s.now place depth 1 out.old at }
    ensures { RowsDone (walk (whole s.now) place depth 1) out.old at out.new result }
{
    let line = line_at(s, place, depth);
    let next = place + line.size as usize;
    let text = put_line(out, at, line);
    if line.kind == MQCFT_GROUP {
        let members = number_at(s, place + 12);
        put_all(s, next, depth + 1, members, out, text)
    } else {
        Behind { text, place: next }
    }
}

// Writes the lines of `count` structures from `place` on, with all that is inside them. They are counted down: where they are
// counted up, the compiler keeps what the lines have in common ready over the loop, and 4,093 lines take 105 µs in place of 87.
#[cycle(put_all_put_one)]
pub fn put_all(s: &[u8], place: usize, depth: u32, count: u32, out: &mut [u8], at: usize) -> Behind
    requires { RowsDue s.now place depth count out.old at }
    ensures { RowsDone (walk (whole s.now) place depth count) out.old at out.new result }
{
    let mut behind = Behind { text: at, place };
    for _ in (0..count).rev() {
        behind = put_one(s, behind.place, depth, out, behind.text);
    }
    behind
}

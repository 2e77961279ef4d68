// Where the PCF part of a message lies.
ghost use Rattle.std.specs.Prelude.{◌≡◌, ◌&&◌, ◌+◌, ◌≤◌, leb, length};
ghost use Rattle.meaning.specs.Bytes.{whole};
ghost use Rattle.meaning.specs.Names.{most_bytes};
ghost use Rattle.meaning.specs.Layout.{embedded, is_identified, start_of, embedded_ok, located};
ghost use Rattle.refusals.specs.Refusals.{answered};
ghost use Rattle.layout.specs.Layouts.{form_of, layout_of, part_at};

use refusals::Refusal;
use wire::number_at;

// The most bytes of a message.
pub const MOST_BYTES: usize = 65536;

// The bytes of a PCF header: no part has fewer, and the first structure is behind them.
pub const HEADER: usize = 36;

// The bytes of an embedded header.
pub const EMBEDDED_HEADER: usize = 32;

// The place of StrucLength in it: it says where the part ends, counted from the message's first byte.
pub const STRUC_LENGTH: usize = 8;

#[derive(Clone, Copy, Debug, PartialEq, Eq)]
pub enum Form {
    Plain,
    Embedded,
}

// What the caller says of a message. It is never guessed.
#[derive(Clone, Copy, Debug, PartialEq, Eq)]
pub struct Layout {
    pub form: Form,
}

// A part of a message: the place of its first byte, and the place behind its last one.
#[derive(Clone, Copy, Debug, PartialEq, Eq)]
pub struct Part {
    pub start: usize,
    pub end: usize,
}

// How many bytes stand in front of the part.
fn start_of(form: Form) -> usize
    ensures { result ≡ start_of (form_of form) }
{
    match form {
        Form::Plain => 0,
        Form::Embedded => EMBEDDED_HEADER,
    }
}

// The place of a message's first structure: behind the PCF header.
pub fn first_place(layout: Layout) -> usize
    ensures { result ≡ start_of (form_of layout.form) + 36 }
{
    start_of(layout.form) + HEADER
}

// A message is no longer than its buffer and 65,536 bytes, and has so many bytes at least.
fn length_ok(msg: &[u8], len: usize, least: usize) -> bool
    ensures { result ≡ (leb len (length msg.now) && (leb len most_bytes && leb least len)) }
{
    len <= msg.len() && len <= MOST_BYTES && least <= len
}

// The first four bytes are "EPH ".
fn is_identified(msg: &[u8]) -> bool
    requires { 4 ≤ length msg.now }
    ensures { result ≡ is_identified msg.now }
{
    msg.starts_with(b"EPH ")
}

// The embedded header of a whole message is sound: identifier, Version 1, and a StrucLength that leaves room for a PCF header,
// is not above the message and is a multiple of 4.
#[tactic(auto, unfolding(meaning::specs::Layout::embedded_ok))]
fn embedded_ok(msg: &[u8]) -> bool
    requires { 68 ≤ length msg.now }
    ensures { result ≡ embedded_ok embedded (whole msg.now) }
{
    let end = number_at(msg, STRUC_LENGTH) as usize;
    is_identified(msg)
        && number_at(msg, 4) == 1
        && EMBEDDED_HEADER + HEADER <= end
        && end <= msg.len()
        && end % 4 == 0
}

// THE PART of the message in the first `len` bytes, or 1, then 18. Here and in all that asks for a message's part, buffer and
// length are two parameters: C hands both, a length above the buffer is no slice but a refusal, 1, and an event
// needs the room behind the message.
#[tactic(auto, using(crate::proofs::Locations::short, crate::proofs::Locations::found_plain, crate::proofs::Locations::unsound, crate::proofs::Locations::found_embedded))]
pub fn locate(msg: &[u8], len: usize, layout: Layout) -> Result<Part, Refusal>
    ensures { answered (part_at msg.now) result ≡ located (layout_of layout) msg.now len }
{
    let start = start_of(layout.form);
    if !length_ok(msg, len, start + HEADER) {
        return Err(Refusal::BadLength);
    }
    match layout.form {
        Form::Plain => Ok(Part { start, end: len }),
        Form::Embedded => {
            if !embedded_ok(&msg[..len]) {
                return Err(Refusal::BadEmbeddedHeader);
            }
            Ok(Part {
                start,
                end: number_at(msg, STRUC_LENGTH) as usize,
            })
        }
    }
}

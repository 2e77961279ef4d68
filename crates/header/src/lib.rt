// The headers of a trace-route message and of an activity report, from one table.
#![tactic(auto)]

ghost use Rattle.std.specs.Prelude.{◌≡◌, ◌+◌, ◌≤◌, ◌<◌, length, get_or, take};
ghost use Rattle.meaning.specs.Bytes.{words, splice};
ghost use Rattle.header.specs.Headers.{fields_of, starts_with};

use wire::{number_at, put_number};

// Which message a header starts.
#[derive(Clone, Copy, Debug, PartialEq, Eq)]
pub enum Kind {
    Trace,
    Report,
}

// The table of header fields, a row for each kind: Type, StrucLength, Version, Command, MsgSeqNumber, Control, CompCode, Reason,
// ParameterCount.
const FIELDS: [[u32; 9]; 2] = [
    [10, 36, 3, 75, 1, 1, 0, 0, 1],
    [12, 36, 3, 69, 1, 1, 0, 0, 1],
];

#[tactic(auto, unfolding(meaning::specs::Compose::header_fields, meaning::specs::Compose::trace_header_fields, meaning::specs::Compose::report_header_fields))]
fn field(kind: Kind, i: usize) -> u32
    requires { i < 9 }
    ensures { result ≡ get_or (fields_of kind) i 0 }
{
    // by case, so that a known field of a known header is a constant; an index made of the kind would be no plainer
    match kind {
        Kind::Trace => FIELDS[0][i],
        Kind::Report => FIELDS[1][i],
    }
}

// Writes a header to the start of the buffer; what is behind it stays.
pub fn put_header(buf: &mut [u8], kind: Kind)
    requires { 36 ≤ length buf.old }
    ensures { buf.new ≡ splice buf.old 0 (words (fields_of kind)) }
{
    for i in 0..9 {
        put_number(buf, i * 4, field(kind, i));
    }
}

// The bytes from `at` on are the first eight fields of the header; the last one, ParameterCount, may be any.
pub fn has_header(msg: &[u8], at: usize, kind: Kind) -> bool
    requires { at + 36 ≤ length msg.now }
    ensures { result ≡ starts_with msg.now at (take 8 (fields_of kind)) }
{
    (0..8).all(|i| number_at(msg, at + i * 4) == field(kind, i))
}

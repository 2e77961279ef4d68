// The lines of a listing as text. Each writer puts its text into the lent bytes from a place on, leaves every other byte as it
// was, and answers the place behind the text. Buffer and place stay two parameters: of a struct that holds both, what comes back
// to the lender has no name that a proof could cite. The library's `write!` writes no line here, since it promises no text: `Wrote`
// says each byte.
#![tactic(auto)]

ghost use Rattle.std.specs.Prelude.{◌≡◌, length};
ghost use Rattle.meaning.specs.Listing.{decimal, column, end_line, refusal_line};
ghost use Rattle.text.specs.Wrote.{Room, Wrote};
ghost use Rattle.text.specs.Lines.{line_text, header_text};

// What the line of a structure shows.
#[derive(Clone, Copy, Debug, PartialEq, Eq)]
pub struct Line {
    pub depth: u32,
    pub place: u32,
    pub kind: u32,
    pub parameter: u32,
    pub size: u32,
}

// How many digits v has. Most numbers of a listing are small, so the small ones come first. A table of ranges is faster than
// `checked_ilog10`, which proves as well: a listing's column takes 5.6 ns with the table and 7.1 ns with that.
fn width(v: u32) -> usize
    ensures { result ≡ length (decimal v) }
{
    match v {
        0..=9 => 1,
        10..=99 => 2,
        100..=999 => 3,
        1000..=9999 => 4,
        10000..=99999 => 5,
        100000..=999999 => 6,
        1000000..=9999999 => 7,
        10000000..=99999999 => 8,
        100000000..=999999999 => 9,
        _ => 10,
    }
}

// The digits of v. Their number is known first, so that they are written from the last one on and never moved.
pub fn put_decimal(out: &mut [u8], at: usize, v: u32) -> usize
    requires { Room out.old at (decimal v) }
    ensures { Wrote out.old at (decimal v) out.new result }
{
    let count = width(v);
    let mut rest = v;
    for left in (0..count).rev() {
        out[at + left] = b'0' + (rest % 10) as u8;
        rest /= 10;
    }
    at + count
}

// A number and the byte behind it.
#[tactic(auto, using(crate::proofs::Laws::column_length))]
pub fn put_column(out: &mut [u8], at: usize, v: u32, behind: u8) -> usize
    requires { Room out.old at (column v behind) }
    ensures { Wrote out.old at (column v behind) out.new result }
{
    let end = put_decimal(out, at, v);
    out[end] = behind;
    end + 1
}

// A word.
fn put_word(out: &mut [u8], at: usize, word: &[u8]) -> usize
    requires { Room out.old at word.now }
    ensures { Wrote out.old at word.now out.new result }
{
    let end = at + word.len();
    out[at..end].copy_from_slice(word);
    end
}

// The line of a structure: depth, place, type, parameter, length.
#[tactic(auto, using(crate::proofs::Laws::front, crate::proofs::Laws::behind), unfolding(crate::specs::Lines::line_text, meaning::specs::Listing::row_line))]
pub fn put_line(out: &mut [u8], at: usize, line: Line) -> usize
    requires { Room out.old at (line_text line) }
    ensures { Wrote out.old at (line_text line) out.new result }
{
    let a = put_column(out, at, line.depth, b' ');
    let b = put_column(out, a, line.place, b' ');
    let c = put_column(out, b, line.kind, b' ');
    let d = put_column(out, c, line.parameter, b' ');
    put_column(out, d, line.size, b'\n')
}

// The header line: type, command, count, length.
#[tactic(auto, using(crate::proofs::Laws::front, crate::proofs::Laws::behind), unfolding(crate::specs::Lines::header_text))]
pub fn put_header(out: &mut [u8], at: usize, kind: u32, command: u32, count: u32, len: u32) -> usize
    requires { Room out.old at (header_text kind command count len) }
    ensures { Wrote out.old at (header_text kind command count len) out.new result }
{
    let a = put_word(out, at, b"pcf ");
    let b = put_column(out, a, kind, b' ');
    let c = put_column(out, b, command, b' ');
    let d = put_column(out, c, count, b' ');
    put_column(out, d, len, b'\n')
}

// The last line: the number of structures.
#[tactic(auto, using(crate::proofs::Laws::front, crate::proofs::Laws::behind), unfolding(meaning::specs::Listing::end_line))]
pub fn put_end(out: &mut [u8], at: usize, count: u32) -> usize
    requires { Room out.old at (end_line count) }
    ensures { Wrote out.old at (end_line count) out.new result }
{
    let a = put_word(out, at, b"end ");
    put_column(out, a, count, b'\n')
}

// The one line of a refusal: its number and its place.
#[tactic(auto, using(crate::proofs::Laws::front, crate::proofs::Laws::behind), unfolding(meaning::specs::Listing::refusal_line))]
pub fn put_refusal(out: &mut [u8], at: usize, number: u32, place: u32) -> usize
    requires { Room out.old at (refusal_line number place) }
    ensures { Wrote out.old at (refusal_line number place) out.new result }
{
    let a = put_word(out, at, b"refused ");
    let b = put_column(out, a, number, b' ');
    put_column(out, b, place, b'\n')
}

// The parts of a message that are handed out, against place and length.
use crate::report::{say, say_bytes, say_held, say_number};
use activities::{Span, activity_group, activity_span, name_span, named_string};
use attributes::Terms;

// Whether a part is as long as its span says and has the message's bytes from there on.
fn is_part(msg: &[u8], span: Span, part: &[u8]) -> bool {
    let Some(rest) = msg.get(span.place..) else {
        return false;
    };
    rest.get(..span.length) == Some(part)
}

// The n-th Activity group: the part against the span.
pub fn show_group(msg: &[u8], len: usize, terms: Terms, n: usize) {
    let span = activity_span(msg, len, terms, n);
    let part = activity_group(msg, len, terms, n);
    say_number(b"group ", n);
    say_number(b" at ", span.place);
    say_number(b" length ", part.len());
    say_held(is_part(msg, span, part));
}

// A named string: the part against the span, or the substitute whole, which ends in blanks and a zero byte.
pub fn show_name(msg: &[u8], len: usize, terms: Terms, n: usize, id: u32) {
    let other = *b"(no name) \0 ";
    let part = named_string(msg, len, terms, n, id, &other);
    say_number(b"name ", n);
    say(b" [");
    say_bytes(part);
    match name_span(msg, len, terms, n, id) {
        None => {
            say(b"]");
            say_held(part == other.as_slice());
        }
        Some(span) => {
            say_number(b"] at ", span.place);
            say_number(b" length ", part.len());
            say_held(is_part(msg, span, part));
        }
    }
}

// Named strings in an Activity group, without their trailing blanks and zero bytes.
ghost use Rattle.std.specs.Prelude.{◌≡◌, length, true};
ghost use Rattle.meaning.specs.Walk.{walk};
ghost use Rattle.meaning.specs.Bytes.{whole};
ghost use Rattle.meaning.specs.Activity.{is_pad, trimmed, name_of};
ghost use Rattle.attributes.specs.Terms.{terms_of};
ghost use Rattle.trace.specs.Passing.{is_sound};
ghost use Rattle.activities.specs.Naming.{named_in, string_in, Gives};

use crate::group::Span;
use attributes::Terms;
use trace::{behind, trace_of};
use wire::number_at;

const MQCFT_STRING: u32 = 4;

const BLANK: u8 = 0x20;

const ZERO: u8 = 0x00;

// A byte that a name does not end with.
#[tactic(auto, unfolding(meaning::specs::Activity::is_pad))]
fn is_pad(byte: u8) -> bool
    ensures { result ≡ is_pad byte }
{
    matches!(byte, BLANK | ZERO)
}

// How many of the bytes are left without the trailing blanks and zero bytes.
#[tactic(auto, using(crate::proofs::Namings::kept_stop, crate::proofs::Namings::kept_next, crate::proofs::Namings::kept_none))]
fn kept(s: &[u8]) -> usize
    ensures { result ≡ length (trimmed s.now) }
{
    let mut left = s;
    while let [front @ .., last] = left {
        if !is_pad(*last) {
            return left.len();
        }
        left = front;
    }
    0
}

// The data of the first string with the identifier among a group's direct members, `count` of them, the first at `place`. The
// members were surveyed, so none is checked again.
#[tactic(auto, using(trace::proofs::Skipping::left_first, trace::proofs::Skipping::known_room))]
fn first_string(s: &[u8], place: usize, count: u32, id: u32) -> Option<Span>
    requires { is_sound (walk (whole s.now) place 2 count) ≡ true }
    ensures { named_in result ≡ string_in (whole s.now) id (walk (whole s.now) place 2 count) }
{
    let mut at = place;
    for _ in 0..count {
        if number_at(s, at) == MQCFT_STRING && number_at(s, at + 8) == id {
            return Some(Span {
                place: at + 20,
                length: number_at(s, at + 16) as usize,
            });
        }
        at = behind(s, at, 2);
    }
    None
}

// Where the first direct string with the identifier in the n-th Activity group is, without its trailing blanks and zero bytes;
// nothing, and then the substitute stands for it, if message or sheet is refused as in Read or there is no such string. (C needs place
// and length, and the rules name the returned part, which `named_string` cuts by them.)
pub fn name_span(msg: &[u8], len: usize, terms: Terms, n: usize, id: u32) -> Option<Span>
    ensures { named_in result ≡ name_of (terms_of terms) msg.now len n id }
{
    let Ok(t) = trace_of(msg, len, terms, n) else {
        return None;
    };
    let data = first_string(
        &msg[..t.part.end],
        t.activity.inside,
        t.activity.members,
        id,
    )?;
    Some(Span {
        place: data.place,
        length: kept(&msg[data.place..data.place + data.length]),
    })
}

// A NAMED STRING: a part of the message, or the lent substitute whole.
#[tactic(auto, using(crate::proofs::Namings::name_in))]
pub fn named_string<'a>(
    msg: &'a [u8],
    len: usize,
    terms: Terms,
    n: usize,
    id: u32,
    substitute: &'a [u8],
) -> &'a [u8]
    ensures { Gives msg.entry substitute.entry (name_of (terms_of terms) msg.now len n id) result }
{
    match name_span(msg, len, terms, n, id) {
        Some(Span { place, length }) => &msg[place..place + length],
        None => substitute,
    }
}

// The n-th Activity group, as a part of the message.
ghost use Rattle.std.specs.Prelude.{◌≡◌};
ghost use Rattle.meaning.specs.Activity.{activity_group};
ghost use Rattle.attributes.specs.Terms.{terms_of};
ghost use Rattle.activities.specs.Spans.{span_in, SliceAt};

use attributes::Terms;
use trace::trace_of;

// A part of the message: where it starts, and how many bytes it has.
#[derive(Clone, Copy, Debug, PartialEq, Eq)]
pub struct Span {
    pub place: usize,
    pub length: usize,
}

// Where the n-th Activity group is, from 0, with all that is inside it; nothing, at the message's start, if there is none or
// if message or sheet is refused as in Read: the definition `activity_group` has that part, and C is told it.
#[tactic(auto, using(crate::proofs::Parts::activity_traced, crate::proofs::Parts::activity_lost))]
pub fn activity_span(msg: &[u8], len: usize, terms: Terms, n: usize) -> Span
    ensures { span_in result ≡ activity_group (terms_of terms) msg.now len n }
{
    match trace_of(msg, len, terms, n) {
        Ok(t) => Span {
            place: t.activity.place,
            length: t.activity.length,
        },
        Err(_) => Span {
            place: 0,
            length: 0,
        },
    }
}

// THE N-TH ACTIVITY GROUP: the caller's own bytes.
pub fn activity_group(msg: &[u8], len: usize, terms: Terms, n: usize) -> &[u8]
    ensures { SliceAt msg.entry (activity_group (terms_of terms) msg.now len n) result }
{
    let Span { place, length } = activity_span(msg, len, terms, n);
    &msg[place..place + length]
}

// Compose: a trace-route message from a sheet and eight values.
ghost use Rattle.std.specs.Prelude.{◌≡◌, ◌∷◌, [], ◌+◌, ◌≤◌, length};
ghost use Rattle.meaning.specs.Bytes.{words, splice};
ghost use Rattle.meaning.specs.Layout.{no_embedding};
ghost use Rattle.meaning.specs.Compose.{composed as composed_of, compose as compose_of};
ghost use Rattle.compose.specs.Composes.{composed_into, plain_terms};
ghost use Rattle.attributes.specs.Terms.{terms_of};
ghost use Rattle.layout.specs.Layouts.{embedding_in};

use attributes::{MQGACF_TRACE_ROUTE, Terms, in_range, sheet_ok};
use header::{Kind, put_header};
use layout::{Embedding, Form, Layout, laid_out_length, no_embedding, put_around};
use refusals::Refusal;
use structure::{MQCFT_GROUP, MQCFT_INTEGER};
use wire::put_number;

// The length of a composed part.
const COMPOSED: usize = 180;

// Writes four numbers from `at` on: a group's header, or an integer.
#[tactic(auto, using(crate::proofs::Composing::four_words))]
fn put_four(buf: &mut [u8], at: usize, kind: u32, size: u32, parameter: u32, last: u32)
    requires { at + 16 ≤ length buf.old }
    ensures { buf.new ≡ splice buf.old at (words (kind ∷ size ∷ parameter ∷ last ∷ [])) }
{
    put_number(buf, at, kind);
    put_number(buf, at + 4, size);
    put_number(buf, at + 8, parameter);
    put_number(buf, at + 12, last);
}

// Header, TraceRoute group, and the eight integers in the rules' order.
fn put_trace(buf: &mut [u8], sheet: [u32; 8], values: [u32; 8])
    requires { 180 ≤ length buf.old }
    ensures { buf.new ≡ splice buf.old 0 (composed_of sheet values) }
{
    put_header(buf, Kind::Trace);
    put_four(buf, 36, MQCFT_GROUP, 16, MQGACF_TRACE_ROUTE, 8);
    for k in 0..8 {
        put_four(buf, 52 + k * 16, MQCFT_INTEGER, 16, sheet[k], values[k]);
    }
}

// COMPOSE: writes the message to the start of the buffer: embedded, the header and the user data around the part. It answers the
// length written, or 17, 8 or 12. A refusal changes nothing. It is compiled into those who ask it, so that a plain message pays
// nothing for what an embedded one needs beside: as a call it takes a quarter longer.
#[inline(always)]
pub fn compose(
    terms: Terms,
    values: [u32; 8],
    embedding: Embedding,
    user: &[u8],
    buf: &mut [u8],
) -> Result<usize, Refusal>
    ensures { composed_into result buf.new ≡ compose_of (terms_of terms) values (embedding_in embedding) user.now buf.old }
{
    if !sheet_ok(terms.sheet) {
        return Err(Refusal::BadSheet);
    }
    if !in_range(values) {
        return Err(Refusal::BadAttribute);
    }
    let length = laid_out_length(terms.layout, COMPOSED, user.len(), buf.len())?;
    let start = put_around(buf, terms.layout, embedding, COMPOSED, user);
    put_trace(&mut buf[start..], terms.sheet, values);
    Ok(length)
}

// COMPOSE A PLAIN MESSAGE: its part, with nothing around it. (C has two functions to compose; this one calls the other.)
pub fn compose_plain(sheet: [u32; 8], values: [u32; 8], buf: &mut [u8]) -> Result<usize, Refusal>
    ensures { composed_into result buf.new ≡ compose_of (plain_terms sheet) values no_embedding [] buf.old }
{
    let layout = Layout { form: Form::Plain };
    compose(Terms { layout, sheet }, values, no_embedding(), &[], buf)
}

// Compose, read, the decisions, Activity groups and names.
ghost use Rattle.std.specs.Prelude.{◌≡◌};
ghost use Rattle.codes.specs.Codes.{code};
ghost use Rattle.attributes.specs.Terms.{terms_of};
ghost use Rattle.codes.specs.Decisions.{decided_number};
ghost use Rattle.codes.specs.Options.{options_in};
ghost use Rattle.gwirandol.specs.Traces.{terms_in, embedding_with, Composes, ComposesPlain, Reads, Spans, Names};
ghost use Rattle.meaning.specs.Activity.{name_of};
ghost use Rattle.meaning.specs.Decision.{forwarding, arrival};

use attributes::Terms;
use codes::{coded, given, layout_of, options_of, refused};
use layout::Embedding;

// What the caller states about a trace: the layout by its options, and the identifiers.
fn terms_of(options: u32, sheet: &[u32; 8]) -> Terms
    ensures { terms_of result ≡ terms_in options sheet.now }
{
    Terms {
        layout: layout_of(options),
        sheet: *sheet,
    }
}

// The embedding with these fields, Encoding, CodedCharSetId and Flags, and with this Format.
fn embedding_with(fields: &[u32; 3], format: &[u8; 8]) -> Embedding
    ensures { result ≡ embedding_with fields.now format.now }
{
    Embedding {
        encoding: fields[0],
        ccsid: fields[1],
        format: *format,
        flags: fields[2],
    }
}

// COMPOSE: the length written, or 17, 8 or 12 and the buffer stays. Fields, format and user data are an embedded message's.
#[tactic(auto, using(crate::proofs::Reach::compose_fits))]
#[unsafe(no_mangle)]
pub extern "C" fn gw_compose(
    sheet: &[u32; 8],
    values: &[u32; 8],
    options: u32,
    fields: &[u32; 3],
    format: &[u8; 8],
    user: &[u8],
    buffer: &mut [u8],
) -> u64
    ensures { Composes (terms_in options sheet.now) values.now fields.now format.now user.now buffer.old result buffer.new }
{
    let embedding = embedding_with(fields, format);
    coded(compose::compose(terms_of(options, sheet), *values, embedding, user, buffer))
}

// COMPOSE A PLAIN MESSAGE: as gw_compose does without options, and with nothing to hand over for an embedded one.
#[tactic(auto, using(crate::proofs::Reach::compose_fits))]
#[unsafe(no_mangle)]
pub extern "C" fn gw_compose_plain(sheet: &[u32; 8], values: &[u32; 8], buffer: &mut [u8]) -> u64
    ensures { ComposesPlain sheet.now values.now buffer.old result buffer.new }
{
    coded(compose::compose_plain(*sheet, *values, buffer))
}

// READ: the user data's place, the eight values, and the embedding; or 17, then 1, 18 and 2 to 8, and all of them stay.
#[tactic(auto, using(crate::proofs::Reach::read_small, crate::proofs::Reach::read_user))]
#[unsafe(no_mangle)]
pub extern "C" fn gw_read(
    buffer: &[u8],
    length: usize,
    sheet: &[u32; 8],
    options: u32,
    values: &mut [u32; 8],
    fields: &mut [u32; 3],
    format: &mut [u8; 8],
) -> u64
    ensures { Reads (terms_in options sheet.now) buffer.now length values.old fields.old format.old result values.new fields.new format.new }
{
    match routing::read(buffer, length, terms_of(options, sheet)) {
        Err(r) => refused(r),
        Ok(found) => {
            // an array leaves a struct by a variable: the borrow checker knows no other way
            let told = found.values;
            let e = found.embedding;
            let named = e.format;
            *values = told;
            *fields = [e.encoding, e.ccsid, e.flags];
            *format = named;
            given(found.user)
        }
    }
}

// FORWARDING, to a manager that the options say to support trace-route messaging or not: 1, or Read's refusals, then 14, 15
// and 16.
#[tactic(auto, using(crate::proofs::Reach::decided_fits, crate::proofs::Reach::forward_fits))]
#[unsafe(no_mangle)]
pub extern "C" fn gw_forward(buffer: &[u8], length: usize, sheet: &[u32; 8], options: u32) -> u64
    ensures { result ≡ code (decided_number (forwarding (terms_in options sheet.now) buffer.now length (options_in options).supporting)) }
{
    let supporting = options_of(options).supporting;
    coded(routing::forward(buffer, length, terms_of(options, sheet), supporting))
}

// ARRIVAL: 2 to put, 3 to withhold, or Read's refusals, then 14.
#[tactic(auto, using(crate::proofs::Reach::decided_fits, crate::proofs::Reach::arrive_fits))]
#[unsafe(no_mangle)]
pub extern "C" fn gw_arrive(buffer: &[u8], length: usize, sheet: &[u32; 8], options: u32) -> u64
    ensures { result ≡ code (decided_number (arrival (terms_in options sheet.now) buffer.now length)) }
{
    coded(routing::arrive(buffer, length, terms_of(options, sheet)))
}

// THE N-TH ACTIVITY GROUP: its place and length, 0 and 0 if there is none.
#[unsafe(no_mangle)]
pub extern "C" fn gw_activity_group(
    buffer: &[u8],
    length: usize,
    sheet: &[u32; 8],
    options: u32,
    n: usize,
    part: &mut [u64; 2],
)
    ensures { Spans (terms_in options sheet.now) buffer.now length n part.new }
{
    let span = activities::activity_span(buffer, length, terms_of(options, sheet), n);
    *part = [span.place as u64, span.length as u64];
}

// A NAMED STRING: whether the message has it, and its place and length; else the part stays as it was.
#[unsafe(no_mangle)]
pub extern "C" fn gw_named_string(
    buffer: &[u8],
    length: usize,
    sheet: &[u32; 8],
    options: u32,
    n: usize,
    identifier: u32,
    part: &mut [u64; 2],
) -> bool
    ensures { Names (name_of (terms_in options sheet.now) buffer.now length n identifier) part.old result part.new }
{
    match activities::name_span(buffer, length, terms_of(options, sheet), n, identifier) {
        None => false,
        Some(span) => {
            *part = [span.place as u64, span.length as u64];
            true
        }
    }
}

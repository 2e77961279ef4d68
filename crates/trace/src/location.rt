// Where the attributes of a trace are, what they are, and where its Activity groups are: the refusals of Read.
ghost use Rattle.std.specs.Prelude.{◌≡◌, true};
ghost use Rattle.meaning.specs.Walk.{walk};
ghost use Rattle.meaning.specs.Bytes.{whole};
ghost use Rattle.meaning.specs.Trace.{sheet_ok};
ghost use Rattle.refusals.specs.Refusals.{answer};
ghost use Rattle.layout.specs.Layouts.{part_at};
ghost use Rattle.attributes.specs.Terms.{terms_of};
ghost use Rattle.trace.specs.Passing.{is_sound};
ghost use Rattle.trace.specs.Locations.{Headed, attributes_in, judged_in, traced_by};

use crate::groups::{Group, Tops, survey};
use crate::members::{marks_of, places_of, values_at};
use attributes::{Terms, in_range, sheet_ok};
use header::{Kind, has_header};
use layout::{HEADER, Part};
use pcf::{Opening, opened};
use refusals::Refusal;

// The places and the values of the eight attributes of a sound trace, two lists as in the definition `Trace`; an Activity group, and
// the part that the trace is in its message.
#[derive(Clone, Copy, Debug, PartialEq, Eq)]
pub struct Traced {
    pub places: [usize; 8],
    pub values: [u32; 8],
    pub activity: Group,
    pub part: Part,
}

// 8: each of the sheet's identifiers has exactly one direct member of the TraceRoute group, an integer in its range.
fn attributes(
    s: &[u8],
    part: Part,
    sheet: [u32; 8],
    route: Group,
    activity: Group,
) -> Result<Traced, Refusal>
    requires surveyed { is_sound (walk (whole s.now) route.inside 2 route.members) ≡ true }
    requires sheeted { sheet_ok sheet ≡ true }
    ensures { answer result ≡ attributes_in sheet (whole s.now) route.inside route.members activity part }
{
    let marks = marks_of(s, route.inside, route.members, sheet);
    let Some(places) = places_of(marks) else {
        return Err(Refusal::BadAttribute);
    };
    let values = values_at(s, places);
    if !in_range(values) {
        return Err(Refusal::BadAttribute);
    }
    Ok(Traced {
        places,
        values,
        activity,
        part,
    })
}

// 6, then 7, then 8: the header is a trace's, and there is exactly one TraceRoute group.
fn judge(msg: &[u8], opening: Opening, sheet: [u32; 8], tops: Tops) -> Result<Traced, Refusal>
    requires headed { Headed msg.now opening tops.routes }
    requires sheeted { sheet_ok sheet ≡ true }
    ensures { answer result ≡ judged_in sheet (part_at msg.now opening.part) tops.routes tops.activities.group }
{
    let part = opening.part;
    if opening.count < 1 || !has_header(msg, part.start, Kind::Trace) {
        return Err(Refusal::NoTraceHeader);
    }
    if tops.routes.count != 1 {
        return Err(Refusal::NoTraceRoute);
    }
    attributes(
        &msg[..part.end],
        part,
        sheet,
        tops.routes.group,
        tops.activities.group,
    )
}

// TRACE: the attributes of a message and its n-th Activity group. 17 comes first, then 1, 18 and 2, then the structures, of which
// all are gone over, and nothing may follow; then the trace is judged by the groups that were met.
pub fn trace_of(msg: &[u8], len: usize, terms: Terms, n: usize) -> Result<Traced, Refusal>
    ensures { answer result ≡ traced_by n (terms_of terms) msg.now len }
{
    if !sheet_ok(terms.sheet) {
        return Err(Refusal::BadSheet);
    }
    let opening = opened(msg, len, terms.layout)?;
    let part = opening.part;
    let tops = survey(&msg[..part.end], part.start + HEADER, opening.count, n)?;
    if tops.behind != part.end {
        return Err(Refusal::LeftOver(tops.behind));
    }
    judge(msg, opening, terms.sheet, tops)
}

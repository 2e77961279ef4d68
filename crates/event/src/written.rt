// What an accepted event writes: the counter's new value; behind the part the group, with the lengths and the count that tell of
// it; and the report.
ghost use Rattle.std.specs.Prelude.{◌≡◌, length, ◌+◌, ◌≤◌};
ghost use Rattle.meaning.specs.Bytes.{splice};
ghost use Rattle.meaning.specs.Event.{report_of};
ghost use Rattle.event.specs.Written.{written_in, Writable};

use header::{Kind, put_header};
use layout::{HEADER, Layout, Part, lengthen};
use wire::{copy_to, move_back, number_at, put_number};

// Where ParameterCount stands in the part's header.
const COUNT: usize = 32;

// Writes `value` one higher at `at`, where the counter's Value stands. If the group is to be appended, the part grows: an embedded
// header's StrucLength rises by the group's length, the PCF header's ParameterCount by one, the user data moves back, and the group
// is written from the part's old end on. Its parameters are many because it knows nothing of traces and plans: it is the definition
// `written_in`, which has them all.
pub fn write_message(
    buf: &mut [u8],
    len: usize,
    layout: Layout,
    part: Part,
    at: usize,
    value: u32,
    appends: bool,
    group: &[u8],
)
    requires { Writable buf.old len layout part at value appends group.now }
    ensures { buf.new ≡ written_in buf.old len layout part at value appends group.now }
{
    let count = number_at(buf, part.start + COUNT);
    put_number(buf, at, value + 1);
    if appends {
        lengthen(buf, layout, part.end, group.len());
        put_number(buf, part.start + COUNT, count + 1);
        move_back(buf, part.end, len - part.end, group.len());
        copy_to(buf, part.end, group);
    }
}

// Writes a report to the start of its buffer: its header, then the group.
#[tactic(auto, using(crate::proofs::Writes::header_and_group))]
pub fn write_report(report: &mut [u8], group: &[u8])
    requires { 36 + length group.now ≤ length report.old }
    ensures { report.new ≡ splice report.old 0 (report_of group.now) }
{
    put_header(report, Kind::Report);
    copy_to(report, HEADER, group);
}

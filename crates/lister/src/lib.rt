// The bodies of the programs: standard input is read, and text is handed to standard output.
//
// No contract can say which bytes the C library reads or writes. What can be said is said of buffers that the caller lends:
// what was read stands in the one, what was handed to the writer in the other.
#![tactic(auto)]

ghost use Rattle.layout.specs.Layouts.{layout_of};
ghost use Rattle.lister.specs.Runs.{RunsListing, RunsHops, StaysWithin, Printed};

use attributes::Terms;
use hops::print as print_hops;
use layout::Layout;
use listing::print as print_listing;

const STDIN: i32 = 0;

const STDOUT: i32 = 1;

// IBM's identifiers of Detail, RecordedActivities, UnrecordedActivities, DiscontinuityCount, MaxActivities, Accumulate,
// Forward and Deliver.
const IBM_SHEET: [u32; 8] = [1234, 1235, 1257, 1237, 1236, 1238, 1259, 1239];

// The identifier of an application's name.
const MQCACF_APPL_NAME: u32 = 3024;

// How many bytes were read, and how many bytes of text were handed to the writer.
#[derive(Clone, Copy, Debug, PartialEq, Eq)]
pub struct Ran {
    pub read: usize,
    pub handed: usize,
}

// Reads a message from standard input, has its text printed, and hands the text to the writer of standard output. A message has
// at most 65,536 bytes; one byte more is read, so that a longer input is refused and not cut. Whether the writer takes all of
// the text is not told: a program has no exit status to say so.
fn run_with<F: FnOnce(&[u8], &mut [u8; 131072]) -> usize>(
    input: &mut [u8; 65537],
    out: &mut [u8; 131072],
    print: F,
) -> Ran
    requires callable { F.IsAlwaysCallable print }
    requires within { StaysWithin (F.post print) }
    ensures { Printed (F.post print) input.new out.old out.new result }
{
    let read = io::read_full(STDIN, input);
    let handed = print(&input[..read], out);
    io::write_all(STDOUT, &out[..handed]);
    Ran { read, handed }
}

// Reads a message of this layout from standard input, and writes its listing, or the line of a refusal, to standard output.
pub fn run(layout: Layout, input: &mut [u8; 65537], out: &mut [u8; 131072]) -> Ran
    ensures { RunsListing (layout_of layout) input.new out.old out.new result }
{
    run_with(input, out, |msg, text| print_listing(msg, layout, text))
}

// Reads a trace-route message of this layout under IBM's sheet from standard input, and writes its Activity groups with the
// names of the applications, or the line of a refusal, to standard output.
pub fn run_hops(layout: Layout, input: &mut [u8; 65537], out: &mut [u8; 131072]) -> Ran
    ensures { RunsHops (layout_of layout) input.new out.old out.new result }
{
    let terms = Terms {
        layout,
        sheet: IBM_SHEET,
    };
    run_with(input, out, |msg, text| {
        print_hops(msg, terms, MQCACF_APPL_NAME, text)
    })
}

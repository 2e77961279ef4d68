// The lines of all Activity groups of a sound trace. (Text and the place in it are two parameters, as in `text`, which says why.)
ghost use Rattle.std.specs.Prelude.{◌≡◌};
ghost use Rattle.layout.specs.Layouts.{layout_of};
ghost use Rattle.attributes.specs.Terms.{terms_of};
ghost use Rattle.reader.specs.Reading.{nth_top};
ghost use Rattle.text.specs.Wrote.{Wrote};
ghost use Rattle.hops.specs.Hops.{hop_of};
ghost use Rattle.hops.specs.Groups.{spot_in, Reached, LinesDue, LinesDone};

use crate::line::put_hop;
use activities::{activity_group, named_string};
use attributes::{MQGACF_ACTIVITY, Terms};
use layout::{Layout, Part};
use reader::nth_top;
use structure::MQCFT_GROUP;
use wire::number_at;

// Stands for a name that is not there.
const NO_NAME: [u8; 1] = *b"-";

// How many Activity groups there are, and the place behind the text of their lines.
#[derive(Clone, Copy, Debug, PartialEq, Eq)]
pub struct Groups {
    pub count: u32,
    pub text: usize,
}

// The place of the k-th structure of the top level, as a reader of the message finds it, if that is an Activity group.
fn spot_at(msg: &[u8], layout: Layout, k: u32) -> Option<usize>
    ensures { result ≡ spot_in (nth_top (layout_of layout) msg.now k) }
{
    let row = nth_top(msg, layout, k).ok()?.row;
    if row.kind != MQCFT_GROUP || row.parameter != MQGACF_ACTIVITY {
        return None;
    }
    Some(row.place)
}

// The line of the n-th Activity group, from 0, which is at `place`.
fn put_group(
    msg: &[u8],
    terms: Terms,
    id: u32,
    n: u32,
    place: usize,
    out: &mut [u8],
    at: usize,
) -> usize
    requires { Reached (terms_of terms) msg.now id n place out.old at }
    ensures { Wrote out.old at (hop_of (terms_of terms) msg.now id n) out.new result }
{
    let group = activity_group(msg, msg.len(), terms, n as usize);
    let name = named_string(msg, msg.len(), terms, n as usize, id, &NO_NAME);
    put_hop(out, at, n + 1, place as u32, group.len() as u32, name)
}

// Goes over the top-level structures with a reader, and writes a line for each Activity group.
pub fn put_groups(msg: &[u8], terms: Terms, part: Part, id: u32, out: &mut [u8]) -> Groups
    requires { LinesDue (terms_of terms) msg.now part out.old }
    ensures { LinesDone (terms_of terms) msg.now id out.old out.new result }
{
    let count = number_at(msg, part.start + 32);
    let mut groups = Groups { count: 0, text: 0 };
    for k in 0..count {
        if let Some(place) = spot_at(msg, terms.layout, k) {
            groups.text = put_group(msg, terms, id, groups.count, place, out, groups.text);
            groups.count += 1;
        }
    }
    groups
}

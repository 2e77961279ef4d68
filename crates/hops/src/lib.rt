// The Activity groups of a trace-route message, one line each: where the group is, how long it is, and a name in it.
#![tactic(auto)]

mod groups;
mod line;
mod name;

ghost use Rattle.attributes.specs.Terms.{terms_of};
ghost use Rattle.hops.specs.Hops.{hops_text};
ghost use Rattle.text.specs.Prints.{Prints};

use crate::groups::put_groups;
use attributes::Terms;
use listing::refused_line;
use text::put_end;
use trace::trace_of;

// PRINT: the input is one message. For each Activity group of its trace a line with its number from 1, its place in the message,
// its length and the first direct string with the identifier, or `-`; then `end` and how many groups there are. A message or
// sheet that Read refuses gives the line of the refusal alone. The answer is the text's length.
pub fn print(input: &[u8], terms: Terms, id: u32, out: &mut [u8; 131072]) -> usize
    ensures { Prints (hops_text (terms_of terms) input.now id) out.old out.new result }
{
    match trace_of(input, input.len(), terms, 0) {
        Err(r) => refused_line(r, out),
        Ok(traced) => {
            let groups = put_groups(input, terms, traced.part, id, out);
            put_end(out, groups.text, groups.count)
        }
    }
}

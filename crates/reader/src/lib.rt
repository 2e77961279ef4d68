// A reader: a message, how it is laid out and a place in it, for callers that take one structure at a time and stop when they
// please. Such a caller asks what stands `here`, and goes on with `moved` to the place behind it: one deeper into a group that
// has members, else at the same depth, until as many structures were taken as the group or the header counts. The counts still
// due are the caller's to keep. The reader's methods are few and thin, and what has to be decided is left to functions over plain
// slices and numbers.
#![tactic(auto)]

ghost use Rattle.std.specs.Prelude.{◌≡◌};
ghost use Rattle.refusals.specs.Refusals.{answered};
ghost use Rattle.layout.specs.Layouts.{layout_of};
ghost use Rattle.pcf.specs.Messages.{stepped_of};
ghost use Rattle.reader.specs.Reading.{start, standing, nth_top};

use layout::{HEADER, Layout, first_place, locate};
use pcf::{Cursor, Stepped, step};
use refusals::Refusal;
use walk::over;

// The whole slice is the message. It is held, not copied.
#[derive(Clone, Copy, Debug, PartialEq, Eq)]
pub struct Reader<'a> {
    pub msg: &'a [u8],
    pub layout: Layout,
    pub at: Cursor,
}

impl<'a> Reader<'a> {
    // A reader of this message, at its first structure.
    pub fn open(msg: &'a [u8], layout: Layout) -> Reader<'a>
        ensures { (result.msg ≡ msg.entry) × (result.layout ≡ layout) × (result.at ≡ start (layout_of layout)) }
    {
        let at = Cursor {
            place: first_place(layout),
            depth: 1,
        };
        Reader { msg, layout, at }
    }

    // The structure where the reader stands and the place behind it, or 1 or 18, then 3 or 4.
    pub fn here(self) -> Result<Stepped, Refusal>
        ensures { answered stepped_of result ≡ standing (layout_of self.entry.layout) self.entry.msg.now self.entry.at }
    {
        step(self.msg, self.msg.len(), self.layout, self.at)
    }

    // A reader of the same message, which is the same memory, at another place.
    pub fn moved(self, to: Cursor) -> Reader<'a>
        ensures { (result.msg ≡ self.entry.msg) × (result.layout ≡ self.entry.layout) × (result.at ≡ to) }
    {
        Reader { at: to, ..self }
    }
}

// What a reader of this message finds at this place. Callers that hold no reader of their own use this.
pub fn look(msg: &[u8], layout: Layout, at: Cursor) -> Result<Stepped, Refusal>
    ensures { answered stepped_of result ≡ standing (layout_of layout) msg.now at }
{
    Reader::open(msg, layout).moved(at).here()
}

// The n-th structure of the top level, from 0: those before it are passed over with all that is inside them, and nothing
// behind it is read. Like one step it gives 1 or 18, then 3 or 4, and does not judge the PCF header; where none is left it
// gives 3.
#[tactic(auto, using(pcf::proofs::Openings::reaches, crate::proofs::Tops::nowhere, crate::proofs::Tops::bytes_there, crate::proofs::Tops::faulty))]
pub fn nth_top(msg: &[u8], layout: Layout, n: u32) -> Result<Stepped, Refusal>
    ensures { answered stepped_of result ≡ nth_top (layout_of layout) msg.now n }
{
    let part = locate(msg, msg.len(), layout)?;
    let place = over(&msg[..part.end], part.start + HEADER, 1, n)?.behind;
    look(msg, layout, Cursor { place, depth: 1 })
}

// Runs the forms that hand out parts of a message and hold one, on the messages of the corners: the returned parts against
// place and length, the reader against single steps; first on plain messages, then on embedded ones. Each line says what was
// found and whether it is the same.
#![tactic(auto)]

mod messages;
mod parts;
mod places;
mod report;

ghost use Rattle.std.specs.Prelude.{◌≤◌};

use crate::messages::{BAD_SHEET, SHEET, put_around, put_decoys, put_names, put_none, put_twice};
use crate::parts::{show_group, show_name};
use crate::places::{show_all, show_place, show_top};
use crate::report::say;
use attributes::Terms;
use layout::{Form, Layout};

// The strings that are looked for, and a string that is not there.
const NAME: u32 = 77;

const ABSENT: u32 = 78;

// How the messages are laid out, and under which sheet they are read.
const PLAIN: Terms = Terms {
    layout: Layout { form: Form::Plain },
    sheet: SHEET,
};

const EMBEDDED: Terms = Terms {
    layout: Layout {
        form: Form::Embedded,
    },
    sheet: SHEET,
};

const PLAIN_BAD_SHEET: Terms = Terms {
    layout: Layout { form: Form::Plain },
    sheet: BAD_SHEET,
};

// The parts: the first groups and the names in them, one more than there are, and a number that no group can have. The functions
// that hand out parts take buffer and length, as C does, and so do these checks of them.
fn show_parts(msg: &[u8], len: usize, terms: Terms, groups: usize) {
    for n in 0..groups {
        show_group(msg, len, terms, n);
        show_name(msg, len, terms, n, NAME);
    }
    show_name(msg, len, terms, 0, ABSENT);
    show_group(msg, len, terms, 4294967296);
    show_name(msg, len, terms, 4294967296, NAME);
}

// The reader: all structures, and those of the top level, one more than there are.
fn show_reader(msg: &[u8], layout: Layout, tops: u32) {
    show_all(msg, layout);
    for k in 0..tops {
        show_top(msg, layout, k);
    }
}

// The message in the first bytes of the buffer: its parts, and the reader, which holds a message that fills its slice.
fn show(buffer: &[u8; 512], len: usize, terms: Terms, groups: usize, tops: u32)
    requires { len ≤ 512 }
{
    show_parts(buffer, len, terms, groups);
    show_reader(&buffer[..len], terms.layout, tops);
}

// The reader at the first structure of the embedded trace, at the end of its part, and in its user data.
fn show_bounds(buffer: &[u8; 512]) {
    let msg = &buffer[..376];
    for place in [68, 344, 360] {
        show_place(msg, EMBEDDED.layout, place);
    }
}

// Plain messages.
fn show_plain() {
    let mut buffer = [0u8; 512];
    put_decoys(&mut buffer, 0);
    say(b"a trace with decoys\n");
    show(&buffer, 312, PLAIN, 2, 3);
    say(b"refused: cut short\n");
    show(&buffer, 308, PLAIN, 1, 2);
    say(b"refused: shorter than a header\n");
    show(&buffer, 35, PLAIN, 1, 1);
    say(b"refused: a sheet with an identifier twice\n");
    show(&buffer, 312, PLAIN_BAD_SHEET, 1, 1);
    put_none(&mut buffer);
    say(b"a trace without Activity groups\n");
    show(&buffer, 180, PLAIN, 1, 2);
    put_names(&mut buffer);
    say(
        b"names: all blanks, empty, with blanks inside, all zeros, a mixture, with both inside, none\n",
    );
    show(&buffer, 468, PLAIN, 8, 9);
    put_twice(&mut buffer);
    say(b"refused: two TraceRoute groups\n");
    show(&buffer, 324, PLAIN, 1, 3);
}

// Embedded messages: the trace with decoys is 32 bytes further back, and 32 bytes of user data follow it, in which no structure
// is found.
fn show_embedded() {
    let mut buffer = [0u8; 512];
    put_decoys(&mut buffer, 32);
    put_around(&mut buffer, 344);
    say(b"an embedded trace with decoys\n");
    show(&buffer, 376, EMBEDDED, 2, 3);
    show_bounds(&buffer);
    say(b"refused: an embedded trace that is longer than its message\n");
    show(&buffer, 343, EMBEDDED, 1, 1);
    say(b"refused: shorter than an embedded header and a header\n");
    show(&buffer, 67, EMBEDDED, 1, 1);
    say(b"refused: an embedded trace as a plain one\n");
    show(&buffer, 376, PLAIN, 1, 1);
    put_decoys(&mut buffer, 0);
    say(b"refused: a plain trace as an embedded one\n");
    show(&buffer, 312, EMBEDDED, 1, 1);
}

fn main() {
    show_plain();
    show_embedded();
}

// What stands around the part: the four fields of an embedded header that no check looks at, and the user data.
ghost use Rattle.std.specs.Prelude.{◌≡◌, ◌+◌, ◌≤◌, ◌<◌, length};
ghost use Rattle.meaning.specs.Bytes.{part_of, splice};
ghost use Rattle.meaning.specs.Layout.{embedded, start_of, no_embedding, embedding_of, embedded_header, laid_out_length, lengthened};
ghost use Rattle.refusals.specs.Refusals.{answer};
ghost use Rattle.layout.specs.Layouts.{form_of, embedding_in, fitting, Around};

use crate::part::{EMBEDDED_HEADER, Form, Layout, MOST_BYTES, STRUC_LENGTH};
use refusals::Refusal;
use wire::{copy_to, number_at, put_number};

// Encoding, CodedCharSetId, Format and Flags: what the sender says of the user data.
#[derive(Clone, Copy, Debug, PartialEq, Eq)]
pub struct Embedding {
    pub encoding: u32,
    pub ccsid: u32,
    pub format: [u8; 8],
    pub flags: u32,
}

// The eight bytes of Format.
#[tactic(auto, using(crate::proofs::Laying::format_read))]
fn format_of(msg: &[u8]) -> [u8; 8]
    requires { 32 ≤ length msg.now }
    ensures { result ≡ (embedding_of embedded (part_of msg.now 32)).format }
{
    let mut format = [0u8; 8];
    format.copy_from_slice(&msg[20..28]);
    format
}

// What stands for the embedding of a message that has none: all 0, as the definition `no_embedding` has it, which the clauses of Read
// and Compose are about.
pub fn no_embedding() -> Embedding
    ensures { embedding_in result ≡ no_embedding }
{
    Embedding {
        encoding: 0,
        ccsid: 0,
        format: [0u8; 8],
        flags: 0,
    }
}

// The embedding of a message that was located.
#[tactic(auto, using(meaning::proofs::Parts::num_part), unfolding(meaning::specs::Layout::embedding_of))]
pub fn embedding_of(msg: &[u8], layout: Layout) -> Embedding
    requires { start_of (form_of layout.form) ≤ length msg.now }
    ensures { embedding_in result ≡ embedding_of (form_of layout.form) (part_of msg.now (start_of (form_of layout.form))) }
{
    match layout.form {
        Form::Plain => no_embedding(),
        Form::Embedded => Embedding {
            encoding: number_at(msg, 12),
            ccsid: number_at(msg, 16),
            format: format_of(msg),
            flags: number_at(msg, 28),
        },
    }
}

// Writes the embedded header of a part that ends at `end`; what is behind it stays.
fn put_embedded_header(buf: &mut [u8], e: Embedding, end: u32)
    requires { 32 ≤ length buf.old }
    ensures { buf.new ≡ splice buf.old 0 (embedded_header (embedding_in e) end) }
{
    copy_to(buf, 0, b"EPH ");
    put_number(buf, 4, 1);
    put_number(buf, STRUC_LENGTH, end);
    put_number(buf, 12, e.encoding);
    put_number(buf, 16, e.ccsid);
    copy_to(buf, 20, &e.format);
    put_number(buf, 28, e.flags);
}

// The length of a message whose part has `size` bytes, with so many bytes of user data, where it is not above 65,536 or `room`.
pub fn laid_out_length(
    layout: Layout,
    size: usize,
    user: usize,
    room: usize,
) -> Result<usize, Refusal>
    requires { size ≤ 65500 }
    ensures { answer result ≡ fitting (laid_out_length (form_of layout.form) user size) room }
{
    let length = match layout.form {
        Form::Plain => size,
        // saturating, so that the sum does not run over: the most that a usize has is above 65,536
        Form::Embedded => (EMBEDDED_HEADER + size).saturating_add(user),
    };
    if room < length || MOST_BYTES < length {
        return Err(Refusal::NoRoom);
    }
    Ok(length)
}

// Writes what stands around a part of `size` bytes, and answers where the part is to start. A plain message has nothing there.
#[tactic(auto, using(crate::proofs::Laying::around_embedded))]
pub fn put_around(buf: &mut [u8], layout: Layout, e: Embedding, size: usize, user: &[u8]) -> usize
    requires { (laid_out_length (form_of layout.form) (length user.now) size ≤ length buf.old) × (size ≤ 65500) }
    ensures { Around (form_of layout.form) (embedding_in e) size user.now buf.old buf.new result }
{
    match layout.form {
        Form::Plain => 0,
        Form::Embedded => {
            let end = EMBEDDED_HEADER + size;
            put_embedded_header(buf, e, end as u32);
            copy_to(buf, end, user);
            EMBEDDED_HEADER
        }
    }
}

// A part that ended at `end` is `by` bytes longer: the embedded header says so, if there is one.
#[tactic(auto, unfolding(meaning::specs::Layout::lengthened, meaning::specs::Bytes::store))]
pub fn lengthen(buf: &mut [u8], layout: Layout, end: usize, by: usize)
    requires { (start_of (form_of layout.form) ≤ length buf.old) × (end + by < 4294967296) }
    ensures { buf.new ≡ lengthened (form_of layout.form) (part_of buf.old end) by buf.old }
{
    if let Form::Embedded = layout.form {
        put_number(buf, STRUC_LENGTH, (end + by) as u32);
    }
}

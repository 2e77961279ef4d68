// The line of one Activity group.
ghost use Rattle.text.specs.Wrote.{Room, Wrote};
ghost use Rattle.hops.specs.Hops.{hop_line};

use crate::name::put_name;
use text::put_column;

// Number, place, length, name. The name is last, because it may have blanks in it.
#[tactic(auto, using(text::proofs::Laws::front, text::proofs::Laws::behind), unfolding(crate::specs::Hops::hop_line))]
pub fn put_hop(
    out: &mut [u8],
    at: usize,
    number: u32,
    place: u32,
    length: u32,
    name: &[u8],
) -> usize
    requires { Room out.old at (hop_line number place length name.now) }
    ensures { Wrote out.old at (hop_line number place length name.now) out.new result }
{
    let a = put_column(out, at, number, b' ');
    let b = put_column(out, a, place, b' ');
    let c = put_column(out, b, length, b' ');
    let end = put_name(out, c, name);
    out[end] = b'\n';
    end + 1
}

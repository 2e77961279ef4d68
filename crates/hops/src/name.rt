// A name as text that stays on its line. A name may have any bytes, and no rule says in which character set: a printable
// byte of ASCII stands for itself, and every other byte, a line end among them, is a dot.
ghost use Rattle.std.specs.Prelude.{◌≡◌};
ghost use Rattle.text.specs.Wrote.{Room, Wrote};
ghost use Rattle.hops.specs.Hops.{shown_byte, shown};

// What is written for a byte.
#[tactic(auto, unfolding(crate::specs::Hops::shown_byte))]
fn shown_byte(x: u8) -> u8
    ensures { result ≡ shown_byte x }
{
    match x {
        b' '..=b'~' => x,
        _ => b'.',
    }
}

// A name, byte for byte.
#[tactic(auto, using(crate::proofs::Names::shown_length, crate::proofs::Names::none_yet))]
pub fn put_name(out: &mut [u8], at: usize, name: &[u8]) -> usize
    requires { Room out.old at (shown name.now) }
    ensures { Wrote out.old at (shown name.now) out.new result }
{
    for (i, &x) in name.iter().enumerate() {
        out[at + i] = shown_byte(x);
    }
    at + name.len()
}

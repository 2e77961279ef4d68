// Numbers in bytes, and bytes over bytes. Every number of a message is read by `number_at` and written by `put_number`, and its
// groups, user data and parts are written by `copy` and `copy_to`.
#![tactic(auto)]

ghost use Rattle.std.specs.Prelude.{◌≡◌, ◌+◌, ◌≤◌, length, get_or, take, drop};
ghost use Rattle.meaning.specs.Bytes.{number, bytes4, splice};
ghost use Rattle.wire.specs.LeastFirst.{LeastFirst};

// The four bytes at `at` as a number, least significant first. The compiler makes one read of a word of this sum before it
// decides what is compiled into what; of the same sum with the most significant byte first it makes four until then, and what
// reads many numbers would no longer be compiled into its callers.
// It has no local and calls nothing, for hosts with little stack: so `as` stands here, and neither `u32::from` nor
// `u32::from_be_bytes`, which are calls (tests/inlined holds it to that).
fn four_at(s: &[u8], at: usize) -> u32
    requires { at + 4 ≤ length s.now }
    ensures { LeastFirst result (get_or s.now at 0) (get_or s.now (at + 1) 0) (get_or s.now (at + 2) 0) (get_or s.now (at + 3) 0) }
{
    (s[at] as u32)
        + (s[at + 1] as u32) * 256
        + (s[at + 2] as u32) * 65536
        + (s[at + 3] as u32) * 16777216
}

// The number in the four bytes at `at`, most significant first: the one reader of numbers.
pub fn number_at(s: &[u8], at: usize) -> u32
    requires { at + 4 ≤ length s.now }
    ensures { result ≡ number s.now at }
{
    four_at(s, at).swap_bytes()
}

// Writes the four bytes of a number at `at`, most significant first.
pub fn put_number(s: &mut [u8], at: usize, v: u32)
    requires { at + 4 ≤ length s.old }
    ensures { s.new ≡ splice s.old at (bytes4 v) }
{
    s[at..at + 4].copy_from_slice(&v.to_be_bytes());
}

// Copies all of `from` to the start of `to`; what is behind stays. A caller that writes further on lends the part of its
// buffer from there. Most runs are short and some have no byte, for which the library's `copy_from_slice` calls memmove too: with
// it an embedded message takes 1.12 of the time to compose.
pub fn copy(to: &mut [u8], from: &[u8])
    requires { length from.now ≤ length to.old }
    ensures { to.new ≡ splice to.old 0 from.now }
{
    for (i, &byte) in from.iter().enumerate() {
        to[i] = byte;
    }
}

// Writes all of `from` over `to` from `at` on: the part of `to` from there is lent on to the copying routine.
pub fn copy_to(to: &mut [u8], at: usize, from: &[u8])
    requires { at + length from.now ≤ length to.old }
    ensures { to.new ≡ splice to.old at from.now }
{
    copy(&mut to[at..], from);
}

// The most bytes that are moved: those of a whole message.
const BLOCK: usize = 65536;

// Moves the `n` bytes at `from` back by `by` bytes. They are taken whole before any of them is written, so that it does not matter
// how far the two places overlap. The compiler makes one move of the two copies: in the object code there is no block. The
// library's `copy_within` moves them in a loop, and takes 1.44 of the time for 32,768 bytes.
pub fn move_back(s: &mut [u8], from: usize, n: usize, by: usize)
    requires { (from + n + by ≤ length s.old) × (n ≤ 65536) }
    ensures { s.new ≡ splice s.old (from + by) (take n (drop from s.old)) }
{
    let mut block = [0; BLOCK];
    copy(&mut block, &s[from..from + n]);
    copy_to(s, from + by, &block[..n]);
}

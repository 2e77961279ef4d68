// An answer as one number for C: what is given times 32, or a refusal's place times 32 and its number.
ghost use Rattle.std.specs.Prelude.{◌≡◌, ◌+◌, ◌*◌, ◌≤◌};
ghost use Rattle.refusals.specs.Refusals.{number_of, place_of};

use refusals::Refusal;

// What an accepted call gives. (`as`, here and wherever a `usize` meets a `u32` or `u64`: Rust has no `From` for it, and where it
// narrows, the number is proved to fit, so that a `TryFrom` would add a refusal that never comes.)
pub fn given(n: usize) -> u64
    requires { n ≤ 4294967296 }
    ensures { result ≡ n * 32 }
{
    n as u64 * 32
}

// A refusal.
pub fn refused(r: Refusal) -> u64
    requires { place_of r ≤ 4294967296 }
    ensures { result ≡ place_of r * 32 + number_of r }
{
    r.place() as u64 * 32 + u64::from(r.number())
}

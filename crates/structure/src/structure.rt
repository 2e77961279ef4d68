// One structure of a message.
ghost use Rattle.std.specs.Prelude.{◌≡◌, cond, ◌&&◌, ◌+◌, eqb, ltb, length};
ghost use Rattle.meaning.specs.Names.{MQCFT_GROUP, most_depth, two_to31};
ghost use Rattle.meaning.specs.Structure.{structure_at};
ghost use Rattle.meaning.specs.Bytes.{whole};
ghost use Rattle.refusals.specs.Refusals.{answered};
ghost use Rattle.structure.specs.Rules.{Fields};
ghost use Rattle.structure.specs.Rows.{sound_in, row_of, reach_of, extent_of};

use crate::table::{TWO_TO_31, length_kept, rule_of};
use refusals::Refusal;
use wire::number_at;

// The type of a group.
pub const MQCFT_GROUP: u32 = 20;

// The type of an integer parameter.
pub const MQCFT_INTEGER: u32 = 3;

// The fixed part of an integer, and of a group: all that they have.
const FIXED: u32 = 16;

// No group is deeper.
const MOST_DEPTH: u32 = 8;

// A structure: its depth, 1 at the top; its place; Type, Parameter and StrucLength; and how many structures follow inside
// it: a group's ParameterCount, 0 for every other type. The type is the number that stands in the message, which may be any: so it
// is listed, and told to C.
#[derive(Clone, Copy, Debug, PartialEq, Eq)]
pub struct Row {
    pub depth: u32,
    pub place: usize,
    pub kind: u32,
    pub parameter: u32,
    pub size: u32,
    pub members: u32,
}

// How far a structure reaches and how many structures follow inside it.
#[derive(Clone, Copy, Debug, PartialEq, Eq)]
pub struct Extent {
    pub size: u32,
    pub members: u32,
}

// Fewer than 16 bytes are left from `place` on. The place may be any number, so that it cannot be added to.
fn too_short(s: &[u8], place: usize) -> bool
    ensures { result ≡ ltb (length s.now) (place + 16) }
{
    s.len() < 16 || s.len() - 16 < place
}

// The structure ends where the bytes do or before, and its length is a multiple of 4 and keeps its type's rule. No rule allows
// less than 16 bytes, so that its fields up to `first`, the one at 12, are there. It stays a call: compiled into `extent_at`, it
// would make that too large for the walks.
#[inline(never)]
#[tactic(auto, using(crate::proofs::Soundness::tiny), unfolding(crate::specs::Rows::sound_in, crate::specs::Rules::field_of, meaning::specs::Bytes::word))]
fn is_sound(s: &[u8], place: usize, kind: u32, size: u32, first: u32) -> bool
    requires { Fields s.now place (length s.now) first }
    ensures { result ≡ sound_in (whole s.now) place kind size }
{
    place + size as usize <= s.len()
        && 16 <= size
        && size % 4 == 0
        && length_kept(s, place, size, first, rule_of(kind))
}

// A group may not be deeper than 8; other structures may.
fn too_deep(kind: u32, depth: u32) -> bool
    ensures { result ≡ (eqb kind MQCFT_GROUP && ltb most_depth depth) }
{
    kind == MQCFT_GROUP && MOST_DEPTH < depth
}

// Only a group has members, as many as the field behind Parameter says.
fn members_of(kind: u32, first: u32) -> u32
    ensures { result ≡ cond (eqb kind MQCFT_GROUP) first 0 }
{
    if kind == MQCFT_GROUP { first } else { 0 }
}

// The structure at `place`, of this depth; or 3 or 4. Any place and depth may be asked for.
#[tactic(auto, using(meaning::proofs::Structures::structure_short), unfolding(crate::specs::Rows::sound_in, meaning::specs::Structure::length_rule, meaning::specs::Structure::structure_at, meaning::specs::Structure::judge, meaning::specs::Bytes::word))]
pub fn structure_at(s: &[u8], place: usize, depth: u32) -> Result<Row, Refusal>
    ensures { answered row_of result ≡ structure_at (whole s.now) place depth }
{
    if too_short(s, place) {
        return Err(Refusal::BadStructure(place));
    }
    let kind = number_at(s, place);
    let size = number_at(s, place + 4);
    let first = number_at(s, place + 12);
    // 3 comes before 4: a structure that is not sound is 3, however deep
    if !is_sound(s, place, kind, size, first) {
        return Err(Refusal::BadStructure(place));
    }
    if too_deep(kind, depth) {
        return Err(Refusal::TooDeep(place));
    }
    Ok(Row {
        depth,
        place,
        kind,
        parameter: number_at(s, place + 8),
        size,
        members: members_of(kind, first),
    })
}

// A group keeps the table's rule with its length and its count.
fn group_kept(size: u32, first: u32) -> bool
    ensures { result ≡ (eqb size 16 && ltb first two_to31) }
{
    // no branch between the two: nearly every group passes both
    (size == FIXED) & (first < TWO_TO_31)
}

// The same without the row, for those who only pass over it. It is a function of its own, and not what `structure_at` gives
// with two fields of its row, because it is the fast form: a walk asks this of each structure that it meets, so it is kept small
// enough to be compiled into the walk. (With `inline(always)` the walk over a flat message takes 1.4 of the time.) Integers and
// groups, which most structures are, are judged at once, and how far they reach is not read but known, so that the walk does not
// wait for it; all else goes by the table. By this a check of a flat message went from 0.44 of plain Rust's time to 0.11.
#[inline]
#[tactic(auto, using(meaning::proofs::Structures::structure_short), unfolding(crate::specs::Rows::sound_in, meaning::specs::Structure::structure_at, meaning::specs::Structure::judge, meaning::specs::Structure::length_rule, meaning::specs::Bytes::word))]
pub fn extent_at(s: &[u8], place: usize, depth: u32) -> Result<Extent, Refusal>
    ensures { answered extent_of result ≡ reach_of (structure_at (whole s.now) place depth) }
{
    if too_short(s, place) {
        return Err(Refusal::BadStructure(place));
    }
    let kind = number_at(s, place);
    let size = number_at(s, place + 4);
    if kind == MQCFT_INTEGER {
        if size == FIXED {
            return Ok(Extent {
                size: FIXED,
                members: 0,
            });
        }
        return Err(Refusal::BadStructure(place));
    }
    let first = number_at(s, place + 12);
    if kind == MQCFT_GROUP {
        if group_kept(size, first) {
            if MOST_DEPTH < depth {
                return Err(Refusal::TooDeep(place));
            }
            return Ok(Extent {
                size: FIXED,
                members: first,
            });
        }
        return Err(Refusal::BadStructure(place));
    }
    if is_sound(s, place, kind, size, first) {
        return Ok(Extent { size, members: 0 });
    }
    Err(Refusal::BadStructure(place))
}

// The eight attributes among the direct members of the TraceRoute group.
ghost use Rattle.std.specs.Prelude.{◌≡◌, length, true};
ghost use Rattle.meaning.specs.Walk.{walk};
ghost use Rattle.meaning.specs.Bytes.{whole};
ghost use Rattle.meaning.specs.Trace.{values_at, sheet_ok};
ghost use Rattle.trace.specs.Passing.{is_sound};
ghost use Rattle.trace.specs.Marks.{onto, Noted, Marked, all_places, InReach};

use crate::passing::behind;
use structure::MQCFT_INTEGER;
use wire::number_at;

// What was met of an attribute among the members so far: nothing; a member that is no integer, or more than one member,
// from which on it stays at fault; or one integer, which is at this place.
#[derive(Clone, Copy, Debug, PartialEq, Eq)]
pub enum Mark {
    Absent,
    Fault,
    At(usize),
}

// The mark of an attribute after one more member with its identifier.
#[tactic(auto, unfolding(crate::specs::Marks::onto))]
fn mark_one(mark: Mark, kind: u32, place: usize) -> Mark
    ensures { result ≡ onto mark kind place }
{
    if kind == MQCFT_INTEGER && mark == Mark::Absent {
        Mark::At(place)
    } else {
        Mark::Fault
    }
}

// The marks of the eight attributes, after one more direct member of the group. They are marked in place: given and handed back
// by value, they are copied for each member, which is slower. No identifier stands twice in the sheet, so the first that is the
// member's is the only one: with all eight looked at for each member, a read of 4,000 further ones took 1.3 of the time.
fn mark_all(sheet: &[u32; 8], marks: &mut [Mark; 8], kind: u32, parameter: u32, place: usize)
    requires { sheet_ok sheet.now ≡ true }
    ensures { Noted sheet.now marks.old kind parameter place marks.new }
{
    for k in 0..8 {
        if parameter == sheet[k] {
            marks[k] = mark_one(marks[k], kind, place);
            return;
        }
    }
}

// The marks of the eight attributes after all of a group's direct members, `count` of them, the first at `place`. What is
// nested deeper is passed over. The members were surveyed, so none is checked again.
#[tactic(auto, using(crate::proofs::Skipping::left_first, crate::proofs::Skipping::known_room, crate::proofs::Marking::none_marked))]
pub fn marks_of(s: &[u8], place: usize, count: u32, sheet: [u32; 8]) -> [Mark; 8]
    requires surveyed { is_sound (walk (whole s.now) place 2 count) ≡ true }
    requires sheeted { sheet_ok sheet ≡ true }
    ensures { Marked sheet (walk (whole s.now) place 2 count) result }
{
    let mut at = place;
    let mut marks = [Mark::Absent; 8];
    for _ in 0..count {
        mark_all(
            &sheet,
            &mut marks,
            number_at(s, at),
            number_at(s, at + 8),
            at,
        );
        at = behind(s, at, 2);
    }
    marks
}

// The places of the eight attributes, if each has one.
pub fn places_of(marks: [Mark; 8]) -> Option<[usize; 8]>
    ensures { result ≡ all_places marks }
{
    let mut places = [0; 8];
    for k in 0..8 {
        let Mark::At(place) = marks[k] else {
            return None;
        };
        places[k] = place;
    }
    Some(places)
}

// The Values of the integers at eight places.
pub fn values_at(s: &[u8], places: [usize; 8]) -> [u32; 8]
    requires { InReach (length s.now) places }
    ensures { result ≡ values_at (whole s.now) places }
{
    let mut values = [0; 8];
    for k in 0..8 {
        values[k] = number_at(s, places[k] + 12);
    }
    values
}

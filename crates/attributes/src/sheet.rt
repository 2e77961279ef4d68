// The sheet: the identifiers of the eight attributes, eight different numbers from 1 to 2^31 - 1.
ghost use Rattle.std.specs.Prelude.{◌≡◌, ◌+◌, ◌<◌, get_or, drop};
ghost use Rattle.meaning.specs.Trace.{absent, sheet_ok};

use structure::TWO_TO_31;

// The number at `i` does not stand again behind it. All tests are made, whatever one of them says: without branches this is
// short enough to be compiled into those who ask it. With branches, as `all` has them, composing took 1.39 of plain Rust's time, so
// 0.54.
#[tactic(auto, using(crate::proofs::Sheets::absent_more, crate::proofs::Sheets::absent_all))]
fn alone(sheet: [u32; 8], i: usize) -> bool
    requires { i < 8 }
    ensures { result ≡ absent (get_or sheet i 0) (drop (i + 1) sheet) }
{
    let x = sheet[i];
    let mut lone = true;
    for k in i + 1..8 {
        lone &= x != sheet[k];
    }
    lone
}

// The sheet is sound: every number is from 1 to 2^31 - 1 and stands there once.
#[tactic(auto, using(crate::proofs::Sheets::identifiers_more, crate::proofs::Sheets::identifiers_all, crate::proofs::Sheets::sheet_ok_as))]
pub fn sheet_ok(sheet: [u32; 8]) -> bool
    ensures { result ≡ sheet_ok sheet }
{
    let mut sound = true;
    for i in 0..8 {
        let x = sheet[i];
        // all tests are made here too
        sound &= (1 <= x) & (x < TWO_TO_31) & alone(sheet, i);
    }
    sound
}

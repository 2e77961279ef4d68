// The table of eleven structure types: the length rule of each, and the test of a length by its rule.
ghost use Rattle.std.specs.Prelude.{◌≡◌, ◌+◌, ◌<◌};
ghost use Rattle.structure.specs.Rules.{kept, JudgesAs, field_of, Fields, Product};

use wire::number_at;

// Counts and lengths from here on are faults.
pub const TWO_TO_31: u32 = 2147483648;

// The length rule of a structure type. Fields are named by their offset from the structure's start.
#[derive(Clone, Copy, Debug, PartialEq, Eq)]
pub enum Rule {
    // exactly this length
    Exact(u32),
    // 16 and this many bytes for each value; Count is the field at 12
    Values(u32),
    // at least the fixed part and the data behind it; the data's length is the fixed part's last field, at this offset
    Data(u32),
    // at least 24 and the strings; Count is the field at 16, StringLength the one at 20
    Strings,
    // 16; ParameterCount, the field at 12, says how many structures follow inside
    Group,
    // no such type
    Unknown,
}

// The length rule that the table has for a type.
#[tactic(auto, unfolding(meaning::specs::Structure::length_rule))]
pub fn rule_of(kind: u32) -> Rule
    ensures { JudgesAs kind result }
{
    match kind {
        // integer
        3 => Rule::Exact(16),
        // string
        4 => Rule::Data(16),
        // integer list
        5 => Rule::Values(4),
        // string list
        6 => Rule::Strings,
        // byte string
        9 => Rule::Data(12),
        // filters, which the rules give as one range: integer, string, byte
        13..=15 => match kind {
            13 => Rule::Exact(20),
            14 => Rule::Data(20),
            _ => Rule::Data(16),
        },
        // group
        20 => Rule::Group,
        // 64-bit integer
        23 => Rule::Exact(24),
        // 64-bit list
        25 => Rule::Values(8),
        _ => Rule::Unknown,
    }
}

// The whole product of two numbers, a count or a length among them: 32 bits would not hold it.
fn product(n: u32, m: u32) -> u64
    requires { m < 2147483648 }
    ensures { Product n m result }
{
    u64::from(n) * u64::from(m)
}

// The structure at `place` keeps the rule with its length, `size`. `first` is its field at 12, which every structure has.
#[tactic(auto, unfolding(crate::specs::Rules::field_of))]
pub fn length_kept(s: &[u8], place: usize, size: u32, first: u32, rule: Rule) -> bool
    requires { Fields s.now place (place + size) first }
    ensures { result ≡ kept rule size (field_of s.now place size) }
{
    let whole = u64::from(size);
    match rule {
        Rule::Exact(n) => size == n,
        Rule::Values(each) => first < TWO_TO_31 && whole == 16 + product(each, first),
        Rule::Data(at) => {
            let fixed = u64::from(at) + 4;
            if whole < fixed {
                return false;
            }
            let n = number_at(s, place + at as usize);
            n < TWO_TO_31 && fixed + u64::from(n) <= whole
        }
        Rule::Strings => {
            if size < 24 {
                return false;
            }
            let n = number_at(s, place + 16);
            let each = number_at(s, place + 20);
            n < TWO_TO_31 && each < TWO_TO_31 && 24 + product(n, each) <= whole
        }
        Rule::Group => first < TWO_TO_31 && size == 16,
        Rule::Unknown => false,
    }
}

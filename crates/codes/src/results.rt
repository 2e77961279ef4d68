// The answers of the entries as one number each.
ghost use Rattle.std.specs.Prelude.{◌≡◌, ℕ};
ghost use Rattle.refusals.specs.Refusals.{answered};
ghost use Rattle.attributes.specs.Decisions.{decision_of};
ghost use Rattle.codes.specs.Codes.{code, Fits};
ghost use Rattle.codes.specs.Decisions.{decision_number};

use crate::code::{given, refused};
use attributes::Decision;
use refusals::Refusal;

// What an entry gives: a number for C stands for it.
pub trait Given {
    ghost number: { Self → ℕ };

    fn number(self) -> usize
        ensures { result ≡ number self };
}

impl Given for u32 {
    ghost number = { λ n. n };

    fn number(self) -> usize {
        self as usize
    }
}

impl Given for usize {
    ghost number = { λ n. n };

    fn number(self) -> usize {
        self
    }
}

// The numbers of the decisions are the C interface.
impl Given for Decision {
    ghost number = { λ d. decision_number (decision_of d) };

    fn number(self) -> usize {
        match self {
            Decision::Forward => 1,
            Decision::PutLocally => 2,
            Decision::Withhold => 3,
        }
    }
}

// What an entry answers, whatever it gives.
pub fn coded<T: Given>(found: Result<T, Refusal>) -> u64
    requires { Fits (answered T.number found) }
    ensures { result ≡ code (answered T.number found) }
{
    match found {
        Ok(x) => given(x.number()),
        Err(r) => refused(r),
    }
}

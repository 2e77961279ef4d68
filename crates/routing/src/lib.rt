// Read, and the decisions about a message that rest on it: forwarding and arrival.
#![tactic(auto)]

ghost use Rattle.std.specs.Prelude.{◌≡◌};
ghost use Rattle.meaning.specs.Trace.{read as read_of};
ghost use Rattle.meaning.specs.Decision.{forwarding, arrival};
ghost use Rattle.refusals.specs.Refusals.{answered};
ghost use Rattle.attributes.specs.Terms.{terms_of};
ghost use Rattle.attributes.specs.Decisions.{decision_of};
ghost use Rattle.routing.specs.Readings.{values_of};

use attributes::{Decision, Terms, arrive_by, forward_by};
use layout::{Embedding, embedding_of};
use refusals::Refusal;
use trace::trace_of;

// The eight values of a sound trace, in the rules' order, its embedding, and the place of its user data.
#[derive(Clone, Copy, Debug, PartialEq, Eq)]
pub struct Values {
    pub values: [u32; 8],
    pub embedding: Embedding,
    pub user: usize,
}

// READ: the eight values, the embedding and the user data's place, or 17, then 1, 18 and 2 to 8. It is compiled into those who
// ask it: as a call it copies what it gives once more.
#[inline(always)]
pub fn read(msg: &[u8], len: usize, terms: Terms) -> Result<Values, Refusal>
    ensures { answered values_of result ≡ read_of (terms_of terms) msg.now len }
{
    let t = trace_of(msg, len, terms, 0)?;
    // an array leaves a struct by a variable: the borrow checker knows no other way
    let values = t.values;
    Ok(Values {
        values,
        embedding: embedding_of(msg, terms.layout),
        user: t.part.end,
    })
}

// FORWARDING: Read's refusals, then the decision by the values.
#[tactic(auto, unfolding(meaning::specs::Decision::forwarding))]
pub fn forward(msg: &[u8], len: usize, terms: Terms, supporting: bool) -> Result<Decision, Refusal>
    ensures { answered decision_of result ≡ forwarding (terms_of terms) msg.now len supporting }
{
    let given = read(msg, len, terms)?;
    forward_by(given.values, supporting)
}

// ARRIVAL: Read's refusals, then the decision by the values.
#[tactic(auto, unfolding(meaning::specs::Decision::arrival))]
pub fn arrive(msg: &[u8], len: usize, terms: Terms) -> Result<Decision, Refusal>
    ensures { answered decision_of result ≡ arrival (terms_of terms) msg.now len }
{
    let given = read(msg, len, terms)?;
    arrive_by(given.values)
}

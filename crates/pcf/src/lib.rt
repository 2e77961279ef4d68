// Whole PCF messages: check, tally, and one structure at a time.
#![tactic(auto)]

mod message;

pub use message::{Cursor, Opening, Stepped, Tallied, check, opened, step, structure_count, tally};

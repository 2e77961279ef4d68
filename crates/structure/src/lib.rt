// One structure of a message: the table of structure types, and what stands at a place.
#![tactic(auto)]

mod structure;
mod table;

pub use structure::{Extent, MQCFT_GROUP, MQCFT_INTEGER, Row, extent_at, structure_at};
pub use table::TWO_TO_31;

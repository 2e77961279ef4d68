// Compose: a new trace.
#![tactic(auto)]

mod composition;

pub use composition::{compose, compose_plain};

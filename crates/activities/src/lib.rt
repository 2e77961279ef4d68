// Activity groups: the n-th of a message as a part of it, and the names in it.
#![tactic(auto)]

mod group;
mod names;

pub use group::{Span, activity_group, activity_span};
pub use names::{name_span, named_string};

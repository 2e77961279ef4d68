// Trace-route messages: the header, the TraceRoute group, and where its eight attributes and the Activity groups are.
#![tactic(auto)]

mod groups;
mod location;
mod members;
mod passing;

pub use groups::Group;
pub use location::{Traced, trace_of};
pub use passing::behind;

// The walk over structures and all that is inside them, for any counter: to pass over them with their number, and with a count for
// each type.
#![tactic(auto)]

mod counter;
mod passing;
mod tallying;
mod walking;

pub use passing::over;
pub use tallying::siblings;
pub use walking::Reached;

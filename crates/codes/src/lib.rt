// Answers as numbers, and numbers taken apart, for C.
#![tactic(auto)]

mod code;
mod events;
mod feedback;
mod options;
mod results;

pub use code::{given, refused};
pub use events::{level_of, told};
pub use feedback::feedback_of;
pub use options::{Options, layout_of, options_of};
pub use results::{Given, coded};

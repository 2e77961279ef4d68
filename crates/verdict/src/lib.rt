// What an event comes to, before any byte is written: what is due for it, and whether it may be done.
#![tactic(auto)]

mod answer;
mod plan;

pub use answer::{Done, decide};
pub use plan::{Counter, Level, Plan, Settings, plan_activity, plan_discontinuity};

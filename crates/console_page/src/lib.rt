// What the console writes for a call, for `lend` and for `read`. A writer adds to a page, and asks for room alone.
#![tactic(auto)]

pub mod answers;
mod messages;
pub mod numbers;
pub mod reading;

// What the console says of a box: what its record holds, what a place's senders sent, and what the answer numbers mean. Each writer
// adds its lines to a page, of every record, sound or not.
#![tactic(auto)]

pub mod help;
mod parts;
mod places;
pub mod points;
pub mod show;

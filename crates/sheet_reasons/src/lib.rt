// Why a sheet is bad: the first line that is not of its form, and what is wrong with it.
#![tactic(auto)]

pub mod bad;
pub mod lines;
pub mod reasons;
pub mod words;

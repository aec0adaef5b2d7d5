// Text: decimals and hexadecimal, read at a place of a slice and added to a page. The definitions are those of document 01's
// recovery sheet; hexadecimal, which only the console has, is defined beside this crate.
#![tactic(auto)]

pub mod hexadecimal;
pub mod page;
pub mod read;

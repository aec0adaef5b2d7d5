// Document 01's sums done by hand, P1 to P10, and a handful in group 2, worked out by the compiled code and printed a line each.
#![tactic(auto)]

mod boxes;
mod dealt;
mod first;
mod lines;
mod second;

use rules::Group;

#[tactic(auto, unfolding(rules::specs::Numbers::groups))]
fn main() {
    first::sums(Group::at(0));
    second::sums(Group::at(1));
}

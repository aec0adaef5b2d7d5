// Four classes to their end, each under its heading: every answer, and what the boxes hold then.
#![tactic(auto)]

mod by_hand;
mod class_coins;
mod moves;
mod of_ten;
mod room;
mod twenty;

fn main() {
    by_hand::class();
    by_hand::lent();
    of_ten::class();
    twenty::classes();
}

// What boxes take from the shares and the points that they hold.
ghost use Rattle.std.specs.Prelude.{◌≤◌, length};

use rules::{Exponent, Four, Pair, Place, Point};
use std::array;

// The shares of as many boxes as it takes, each behind the number of its box.
pub fn recovered(q: u16, shares: &[(usize, Pair)]) -> Pair
    requires { (10 ≤ q) × (length shares.now ≤ 8) }
{
    let keeps = array::from_fn(|m| {
        shares
            .iter()
            .find(|(i, _)| *i == m + 1)
            .map(|(_, share)| *share)
    });
    record_points::recovered_from(q, shares.len(), keeps)
}

// a(0) of a box of group 1 that holds the points of boxes 2 and 3.
pub fn share_from(q: u16, from_2: Four, from_3: Four) -> Exponent
    requires { 10 ≤ q }
{
    let mut places = [Place {
        point: Point::Silent,
    }; 10];
    places[1].point = Point::Held(from_2);
    places[2].point = Point::Held(from_3);
    record_points::ready_from(q, 2, 4, places).pair.first
}

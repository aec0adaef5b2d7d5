// The k lowest points that are there: of the pairs kept for ten boxes, or of one side of the places of ten senders.
ghost use Rattle.std.specs.Prelude.{◌≡◌, [], map, ◌≤◌, ◌<◌, take};
ghost use Rattle.rules.specs.Steps.{points, share_points};
ghost use Rattle.record_points.specs.Points.{points_of, with_point, considered, side, side_kept, side_points};

use interpolation::{Numbered, Points};
use rules::{Exponent, Four, Pair, Place, Point, SetUp};

#[tactic(auto, unfolding(crate::specs::Points::points_of, crate::specs::Points::in_array, folds::specs::Stores::stores))]
fn no_points() -> Points
    ensures { result ≡ points_of [] }
{
    let zero = Numbered {
        number: 0,
        pair: Pair {
            first: Exponent(0),
            second: Exponent(0),
        },
    };
    Points {
        count: 0,
        said: [zero; 8],
    }
}

#[tactic(auto, unfolding(crate::specs::Points::with_point))]
fn with_point(all: Points, number: u16, pair: Pair) -> Points
    requires { all.count < 8 }
    ensures { result ≡ with_point all number pair }
{
    let mut made = all;
    made.said[all.count] = Numbered { number, pair };
    made.count += 1;
    made
}

// One more keep, of the box with this number; at most k are taken.
#[tactic(auto, unfolding(crate::specs::Points::considered))]
fn consider(all: Points, k: usize, number: u16, keep: Option<Pair>) -> Points
    requires { k ≤ 8 }
    ensures { result ≡ considered k all number keep }
{
    match keep {
        Some(pair) if all.count < k => with_point(all, number, pair),
        _ => all,
    }
}

// The pairs kept of the k lowest boxes, or of all if there are fewer.
pub fn points_kept(keeps: [Option<Pair>; 10], k: usize) -> Points
    requires { k ≤ 8 }
    ensures { result ≡ points_of (take k (share_points keeps)) }
{
    let mut made = no_points();
    for m in 0..SetUp::BOXES {
        made = consider(made, k, m as u16 + 1, keeps[m]);
    }
    made
}

// ---- places

// The polynomials that points give: a and a', or b and b'.
#[derive(Clone, Copy)]
pub enum Drawn {
    Rows,
    Columns,
}

// "a and a' come from β, β', and b and b' from α, α'".
fn side_of(four: Four, drawn: Drawn) -> Pair
    ensures { result ≡ side drawn four }
{
    match drawn {
        Drawn::Rows => Pair {
            first: four.beta,
            second: four.beta2,
        },
        Drawn::Columns => Pair {
            first: four.alpha,
            second: four.alpha2,
        },
    }
}

// A silent place has nothing on either side.
fn side_in(place: Place, drawn: Drawn) -> Option<Pair>
    ensures { result ≡ side_kept drawn place }
{
    match place.point {
        Point::Silent => None,
        Point::Held(four) => Some(side_of(four, drawn)),
    }
}

fn sides_in(places: [Place; 10], drawn: Drawn) -> [Option<Pair>; 10]
    ensures { result ≡ map (side_kept drawn) places }
{
    places.map(|place| side_in(place, drawn))
}

// The points of a and a', or else of b and b', that the k lowest-numbered senders held have said.
#[tactic(auto, using(crate::proofs::Lists::side_points_lem))]
pub fn points_held(places: [Place; 10], k: usize, drawn: Drawn) -> Points
    requires { k ≤ 8 }
    ensures { result ≡ points_of (side_points drawn (take k (points places))) }
{
    points_kept(sides_in(places, drawn), k)
}

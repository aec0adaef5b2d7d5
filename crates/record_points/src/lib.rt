// What a box takes from the k lowest of its points: the pair to keep and the four numbers for each box, or the recovered pair.
// How points are gathered (`points`) and how a polynomial goes through them (`interpolation`) know nothing of each other.
#![tactic(auto)]

pub mod points;

ghost use Rattle.std.specs.Prelude.{◌≡◌, ◌≤◌, take};
ghost use Rattle.rules.specs.Matrices.{to_boxes, zero_four};
ghost use Rattle.rules.specs.Steps.{points, share_points, pair_from, ready_four, recovered_from};
ghost use Rattle.record_points.specs.Points.{Lowest};

use matrices::filled;
use points::Drawn;
use rules::{Four, Pair, Place};

// The pair to keep, and what goes to boxes 1 to n; box 1's stands at 0.
#[derive(Clone, Copy)]
pub struct Ready {
    pub pair: Pair,
    pub fours: [Four; 10],
}

// From the k lowest-numbered senders held.
pub fn ready_from(q: u16, k: usize, n: usize, places: [Place; 10]) -> Ready
    requires { Lowest q k × (n ≤ 10) }
    ensures { (result.pair ≡ pair_from q (take k (points places))) × (result.fours ≡ to_boxes n zero_four (ready_four q (take k (points places)))) }
{
    let rows = points::points_held(places, k, Drawn::Rows);
    let columns = points::points_held(places, k, Drawn::Columns);
    let inverse = interpolation::inverses(q, rows);
    let pair = interpolation::pair_at(q, rows, inverse, 0);
    let fours = filled(
        Four::ZERO,
        n,
        |j| interpolation::four_at(q, rows, columns, inverse, j as u16 + 1),
    );
    Ready { pair, fours }
}

// The pair that the recovery shares of the k lowest boxes give.
#[tactic(auto, using(crate::proofs::Values::kept_fit, crate::proofs::Values::kept_said))]
pub fn recovered_from(q: u16, k: usize, keeps: [Option<Pair>; 10]) -> Pair
    requires { Lowest q k }
    ensures { result ≡ recovered_from q (take k (share_points keeps)) }
{
    let all = points::points_kept(keeps, k);
    let inverse = interpolation::inverses(q, all);
    interpolation::pair_at(q, all, inverse, 0)
}

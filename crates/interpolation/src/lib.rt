// Lagrange's interpolation through points, wherever they come from: one inverse for each point, what each counts at x, and the
// values there.
#![tactic(auto)]

ghost use Rattle.std.specs.Prelude.{◌≡◌, ◌<◌, ◌≤◌};
ghost use Rattle.algebra.specs.Interpolation.{others};
ghost use Rattle.rules.specs.Numbers.{exponent};
ghost use Rattle.interpolation.specs.Points.{boxes_of, box_at, said_by};
ghost use Rattle.interpolation.specs.Lagrange.{Fit, Based, Sides, inverse_row, weight_row, weighted_sum, weighted_pair, pair_through, four_through};

use matrices::filled;
use rules::{Exponent, Four, Pair};

// The box that a point stands at, and its pair of numbers there.
#[derive(Clone, Copy)]
pub struct Numbered {
    pub number: u16,
    pub pair: Pair,
}

// As many points as `count` says, and zeros behind: memory is fixed. No ArrayVec, which is not copied: points go by value.
#[derive(Clone, Copy)]
pub struct Points {
    pub count: usize,
    pub said: [Numbered; 8],
}

// The product of x - x_j over all boxes x_j but that of point i.
fn others_at(q: u16, all: Points, i: usize, x: u16) -> Exponent
    requires { Fit q all }
    ensures { result ≡ exponent (others q all.count (box_at (boxes_of all)) i x) }
{
    let mut made = Exponent(1 % q);
    for j in 0..all.count {
        if j != i {
            made = arithmetic::product(
                q,
                made,
                arithmetic::difference(q, Exponent(x), Exponent(all.said[j].number)),
            );
        }
    }
    made
}

// One inverse for each point; it serves every x.
pub fn inverses(q: u16, all: Points) -> [Exponent; 8]
    requires { Fit q all }
    ensures { result ≡ inverse_row q all.count (boxes_of all) }
{
    filled(
        Exponent(0),
        all.count,
        |i| arithmetic::inverted(q, others_at(q, all, i, all.said[i].number)),
    )
}

// What the value of each point counts at x.
fn weights(q: u16, all: Points, inverse: [Exponent; 8], x: u16) -> [Exponent; 8]
    requires { Based q all inverse }
    ensures { result ≡ weight_row q all.count (boxes_of all) x }
{
    filled(
        Exponent(0),
        all.count,
        |i| arithmetic::product(q, others_at(q, all, i, x), inverse[i]),
    )
}

#[tactic(auto, unfolding(crate::specs::Lagrange::weighted_sum))]
fn weighted(q: u16, count: usize, weight: [Exponent; 8], value: [Exponent; 8]) -> Exponent
    requires { (0 < q) × (count ≤ 8) }
    ensures { result ≡ exponent (weighted_sum q count weight value) }
{
    let mut sum = Exponent(0);
    for i in 0..count {
        sum = arithmetic::sum(q, sum, arithmetic::product(q, weight[i], value[i]));
    }
    sum
}

fn weighted_pair(q: u16, weight: [Exponent; 8], all: Points) -> Pair
    requires { Fit q all }
    ensures { result ≡ weighted_pair q weight all }
{
    Pair {
        first: weighted(q, all.count, weight, all.said.map(|s| s.pair.first)),
        second: weighted(q, all.count, weight, all.said.map(|s| s.pair.second)),
    }
}

// The values at x of the two polynomials through the points.
pub fn pair_at(q: u16, all: Points, inverse: [Exponent; 8], x: u16) -> Pair
    requires { Based q all inverse }
    ensures { result ≡ pair_through q (said_by all) x }
{
    weighted_pair(q, weights(q, all, inverse, x), all)
}

// The same through points at the same boxes, a pair of polynomials from each: a(x), a'(x), b(x), b'(x).
pub fn four_at(q: u16, rows: Points, columns: Points, inverse: [Exponent; 8], x: u16) -> Four
    requires { Sides q rows columns inverse }
    ensures { result ≡ four_through q (said_by rows) (said_by columns) x }
{
    let weight = weights(q, rows, inverse, x);
    let a = weighted_pair(q, weight, rows);
    let b = weighted_pair(q, weight, columns);
    Four {
        alpha: a.first,
        alpha2: a.second,
        beta: b.first,
        beta2: b.second,
    }
}

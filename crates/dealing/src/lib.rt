// Dealing: from the coefficients of f and f' to the commitment C and each box's polynomials; and the values of polynomials.
// Matrices are 8 by 8 and go by value; the first k rows and columns are in use, the rest is zero.
#![tactic(auto)]

ghost use Rattle.std.specs.Prelude.{◌≡◌, ◌≤◌, ◌<◌};
ghost use Rattle.rules.specs.Numbers.{exponent, element};
ghost use Rattle.rules.specs.Matrices.{row, coefficient, to_boxes, zero_four};
ghost use Rattle.rules.specs.Dealing.{committed, commitment, value_at, along_y, along_x, polynomials_of};
ghost use Rattle.rules.specs.Steps.{echo_four};
ghost use Rattle.dealing.specs.Rows.{ForBoxes, zero_polynomials};

use matrices::{column, filled};
use rules::{Element, Exponent, Four, Group, Polynomials};

type Square = [[Exponent; 8]; 8];

// ---- the commitment

fn commit_row(group: Group, k: usize, f: [Exponent; 8], f2: [Exponent; 8]) -> [Element; 8]
    requires { (0 < group.p) × (k ≤ 8) }
    ensures { result ≡ row k (element 0) (λ l. element (committed group (coefficient f l) (coefficient f2 l))) }
{
    filled(Element(0), k, |l| arithmetic::commit(group, f[l], f2[l]))
}

// C, by f and f'.
#[tactic(auto, using(folds::specs::Loops::filling_none, folds::specs::Loops::filling_more, folds::specs::Loops::filling_all), unfolding(rules::specs::Dealing::commitment, rules::specs::Matrices::matrix))]
pub fn commit_all(group: Group, k: usize, f: Square, f2: Square) -> [[Element; 8]; 8]
    requires { (0 < group.p) × (k ≤ 8) }
    ensures { result ≡ commitment group k f f2 }
{
    // No `filled`: tried, and what a closure that returns an array ensures is not inferred.
    let mut made = [[Element(0); 8]; 8];
    for j in 0..k {
        made[j] = commit_row(group, k, f[j], f2[j]);
    }
    made
}

// ---- polynomials

// a(x), for the coefficients of a.
#[tactic(auto, unfolding(rules::specs::Dealing::value_at))]
pub fn value_at(q: u16, k: usize, a: [Exponent; 8], x: u16) -> Exponent
    requires { (0 < q) × (k ≤ 8) }
    ensures { result ≡ exponent (value_at q k a x) }
{
    let mut sum = Exponent(0);
    let mut power = Exponent(1 % q);
    for l in 0..k {
        sum = arithmetic::sum(q, sum, arithmetic::product(q, a[l], power));
        power = arithmetic::product(q, power, Exponent(x));
    }
    sum
}

// The coefficients of f(i, y): the value at i of each column.
fn along_columns(q: u16, k: usize, f: Square, i: u16) -> [Exponent; 8]
    requires { (0 < q) × (k ≤ 8) }
    ensures { result ≡ along_y q k f i }
{
    filled(
        Exponent(0),
        k,
        |l| value_at(q, k, column(Exponent(0), k, f, l), i),
    )
}

// The coefficients of f(x, i): the value at i of each row.
fn along_rows(q: u16, k: usize, f: Square, i: u16) -> [Exponent; 8]
    requires { (0 < q) × (k ≤ 8) }
    ensures { result ≡ along_x q k f i }
{
    filled(Exponent(0), k, |j| value_at(q, k, f[j], i))
}

// What box i gets.
#[tactic(auto, unfolding(rules::specs::Dealing::polynomials_of))]
pub fn polynomials_for(q: u16, k: usize, f: Square, f2: Square, i: u16) -> Polynomials
    requires { (0 < q) × (k ≤ 8) }
    ensures { result ≡ polynomials_of q k f f2 i }
{
    Polynomials {
        a: along_columns(q, k, f, i),
        a2: along_columns(q, k, f2, i),
        b: along_rows(q, k, f, i),
        b2: along_rows(q, k, f2, i),
    }
}

// What boxes 1 to n get; box 1's stands at 0.
pub fn polynomials_for_all(q: u16, k: usize, n: usize, f: Square, f2: Square) -> [Polynomials; 10]
    requires { ForBoxes q k n }
    ensures { result ≡ to_boxes n zero_polynomials (polynomials_of q k f f2) }
{
    let zeros = [Exponent(0); 8];
    let zero = Polynomials {
        a: zeros,
        a2: zeros,
        b: zeros,
        b2: zeros,
    };
    filled(zero, n, |j| polynomials_for(q, k, f, f2, j as u16 + 1))
}

// What an echo takes to box j: a(j), a'(j), b(j), b'(j).
#[tactic(auto, unfolding(rules::specs::Steps::echo_four))]
fn echo_four(q: u16, k: usize, all: Polynomials, j: u16) -> Four
    requires { (0 < q) × (k ≤ 8) }
    ensures { result ≡ echo_four q k all j }
{
    Four {
        alpha: value_at(q, k, all.a, j),
        alpha2: value_at(q, k, all.a2, j),
        beta: value_at(q, k, all.b, j),
        beta2: value_at(q, k, all.b2, j),
    }
}

// What an echo takes to boxes 1 to n; box 1's stands at 0.
pub fn echo_fours(q: u16, k: usize, n: usize, all: Polynomials) -> [Four; 10]
    requires { ForBoxes q k n }
    ensures { result ≡ to_boxes n zero_four (echo_four q k all) }
{
    filled(Four::ZERO, n, |j| echo_four(q, k, all, j as u16 + 1))
}

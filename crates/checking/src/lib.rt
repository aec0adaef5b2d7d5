// Checking: refusal 8 (every entry is an element), refusal 9 (every exponent is below q), and the three checks. A check asks
// that its matrix has passed refusal 8: then exponents may be reduced modulo q, and every power is of one below q.
#![tactic(auto)]

ghost use Rattle.std.specs.Prelude.{◌≡◌, ◌+◌, ◌%◌, ◌≤◌, ◌<◌};
ghost use Rattle.folds.specs.Below.{all_below};
ghost use Rattle.rules.specs.Numbers.{element};
ghost use Rattle.rules.specs.Dealing.{in_group, matrix_passes, coefficients_below, polynomials_below, four_below, pair_below, opens, l_equation, j_equation, polynomial_check, opened_at, point_check, share_check};
ghost use Rattle.checking.specs.Equations.{Checkable, Line, element_at, along_part, along_line};

use matrices::column;
use rules::{Element, Exponent, Four, Group, Pair, Polynomials};

// Group, k and C go side by side and in no struct: the signatures of the checks are public and named in the documents. What is asked of
// them is one record (`Checkable`).
type Matrix = [[Element; 8]; 8];

// ---- refusal 8

fn row_passes(group: Group, k: usize, c: [Element; 8]) -> bool
    requires { (0 < group.p) × (k ≤ 8) }
    ensures { result ≡ all_below k (λ l. in_group group (element_at c l)) }
{
    (0..k).all(|l| arithmetic::is_element(group, c[l]))
}

// Refusal 8 holds of no entry.
pub fn matrix_passes(group: Group, k: usize, c: Matrix) -> bool
    requires { (0 < group.p) × (k ≤ 8) }
    ensures { result ≡ matrix_passes group k c }
{
    (0..k).all(|j| row_passes(group, k, c[j]))
}

// ---- refusal 9

fn coefficients_below(q: u16, k: usize, a: [Exponent; 8]) -> bool
    requires { k ≤ 8 }
    ensures { result ≡ coefficients_below q k a }
{
    (0..k).all(|l| a[l].0 < q)
}

// Refusal 9 holds of no coefficient of a send.
#[tactic(auto, unfolding(rules::specs::Dealing::polynomials_below))]
pub fn polynomials_below(q: u16, k: usize, all: Polynomials) -> bool
    requires { k ≤ 8 }
    ensures { result ≡ polynomials_below q k all }
{
    coefficients_below(q, k, all.a)
        && coefficients_below(q, k, all.a2)
        && coefficients_below(q, k, all.b)
        && coefficients_below(q, k, all.b2)
}

// Refusal 9 holds of no number of an echo or ready.
#[tactic(auto, unfolding(rules::specs::Dealing::four_below))]
pub fn four_below(q: u16, four: Four) -> bool
    ensures { result ≡ four_below q four }
{
    four.alpha.0 < q && four.alpha2.0 < q && four.beta.0 < q && four.beta2.0 < q
}

// Refusal 9 holds of neither number of a recovery share.
#[tactic(auto, unfolding(rules::specs::Dealing::pair_below))]
pub fn pair_below(q: u16, pair: Pair) -> bool
    ensures { result ≡ pair_below q pair }
{
    pair.first.0 < q && pair.second.0 < q
}

// ---- lines, and what they open

// The product over l of c_l to the power w x^l.
fn opened_part(group: Group, k: usize, c: [Element; 8], w: Exponent, x: u16) -> Element
    requires { Line group k c }
    ensures { result ≡ element (along_part k c w.0 x % group.p) }
{
    let mut made = Element(1 % group.p);
    let mut power = w;
    for l in 0..k {
        made = arithmetic::times(group.p, made, arithmetic::power(group.p, c[l], power));
        power = arithmetic::product(group.q, power, Exponent(x));
    }
    made
}

// The product over l of c_l to the power x^l.
fn opened_line(group: Group, k: usize, c: [Element; 8], x: u16) -> Element
    requires { Line group k c }
    ensures { result ≡ element (along_line k c x % group.p) }
{
    opened_part(group, k, c, Exponent(1), x)
}

// The product over j and l of C(j,l) to the power x^j y^l.
#[tactic(auto, unfolding(rules::specs::Dealing::opened_at))]
fn opened_at(group: Group, k: usize, c: Matrix, x: u16, y: u16) -> Element
    requires { Checkable group k c }
    ensures { result ≡ element (opened_at group k c x y) }
{
    let mut made = Element(1 % group.p);
    let mut power = Exponent(1);
    for j in 0..k {
        made = arithmetic::times(group.p, made, opened_part(group, k, c[j], power, y));
        power = arithmetic::product(group.q, power, Exponent(x));
    }
    made
}

// ---- equations

// g^x h^y is what the line opens at i.
#[tactic(auto, unfolding(rules::specs::Dealing::opens))]
fn line_opens(group: Group, k: usize, c: [Element; 8], i: u16, x: Exponent, y: Exponent) -> bool
    requires { Line group k c }
    ensures { result ≡ opens group x.0 y.0 (along_line k c i % group.p) }
{
    arithmetic::commit(group, x, y) == opened_line(group, k, c, i)
}

// g^(a_l) h^(a'_l) is the product over j of C(j,l)^(i^j).
fn l_equation(group: Group, k: usize, c: Matrix, i: u16, all: Polynomials, l: usize) -> bool
    requires { Checkable group k c × (l < k) }
    ensures { result ≡ l_equation group k c i all l }
{
    line_opens(
        group,
        k,
        column(Element(0), k, c, l),
        i,
        all.a[l],
        all.a2[l],
    )
}

// g^(b_j) h^(b'_j) is the product over l of C(j,l)^(i^l).
#[tactic(auto, unfolding(rules::specs::Dealing::j_equation))]
fn j_equation(group: Group, k: usize, c: Matrix, i: u16, all: Polynomials, j: usize) -> bool
    requires { Checkable group k c × (j < k) }
    ensures { result ≡ j_equation group k c i all j }
{
    line_opens(group, k, c[j], i, all.b[j], all.b2[j])
}

// g^u h^v is the product over j and l of C(j,l)^(x^j y^l).
#[tactic(auto, unfolding(rules::specs::Dealing::opens))]
fn point_opens(group: Group, k: usize, c: Matrix, x: u16, y: u16, u: Exponent, v: Exponent) -> bool
    requires { Checkable group k c }
    ensures { result ≡ opens group u.0 v.0 (opened_at group k c x y) }
{
    arithmetic::commit(group, u, v) == opened_at(group, k, c, x, y)
}

// ---- the three checks

// For box i.
pub fn polynomial_check(group: Group, k: usize, c: Matrix, i: u16, all: Polynomials) -> bool
    requires { Checkable group k c }
    ensures { result ≡ polynomial_check group k c i all }
{
    (0..k).all(|l| l_equation(group, k, c, i, all, l))
        && (0..k).all(|j| j_equation(group, k, c, i, all, j))
}

// At box i, from box m.
pub fn point_check(group: Group, k: usize, c: Matrix, i: u16, m: u16, four: Four) -> bool
    requires { Checkable group k c }
    ensures { result ≡ point_check group k c i m four }
{
    point_opens(group, k, c, m, i, four.alpha, four.alpha2)
        && point_opens(group, k, c, i, m, four.beta, four.beta2)
}

// For box m: one equation, over column 0.
pub fn share_check(group: Group, k: usize, c: Matrix, m: u16, pair: Pair) -> bool
    requires { Checkable group k c }
    ensures { result ≡ share_check group k c m pair }
{
    line_opens(
        group,
        k,
        column(Element(0), k, c, 0),
        m,
        pair.first,
        pair.second,
    )
}

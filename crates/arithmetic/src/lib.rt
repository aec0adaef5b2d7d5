// Sums modulo q and products modulo p. An exponent and an element are two types: a function that wants the one does not
// take the other. Every function asks for a modulus above 0; ranges beyond that are said where they are needed.
#![tactic(auto)]

ghost use Rattle.std.specs.Prelude.{◌≡◌, ◌+◌, ◌-◌, ◌*◌, ◌%◌, ◌^◌, ◌<◌, ◌≤◌};
ghost use Rattle.algebra.specs.Residues.{inverse};
ghost use Rattle.rules.specs.Numbers.{exponent, element};
ghost use Rattle.rules.specs.Dealing.{committed, in_group};

use rules::{Element, Exponent, Group};

fn product_modulo(m: u16, x: u16, y: u16) -> u16
    requires { 0 < m }
    ensures { result ≡ (x * y) % m }
{
    (u32::from(x) * u32::from(y) % u32::from(m)) as u16
}

// ---- exponents

// Exponents are added, subtracted and multiplied modulo q.
pub fn sum(q: u16, x: Exponent, y: Exponent) -> Exponent
    requires { 0 < q }
    ensures { result ≡ exponent ((x.0 + y.0) % q) }
{
    Exponent(((u32::from(x.0) + u32::from(y.0)) % u32::from(q)) as u16)
}

// x - y, for a y that is at most q.
pub fn difference(q: u16, x: Exponent, y: Exponent) -> Exponent
    requires { (0 < q) × (y.0 ≤ q) }
    ensures { result ≡ exponent ((x.0 + (q - y.0)) % q) }
{
    sum(q, x, Exponent(q - y.0))
}

// x y modulo q.
pub fn product(q: u16, x: Exponent, y: Exponent) -> Exponent
    requires { 0 < q }
    ensures { result ≡ exponent ((x.0 * y.0) % q) }
{
    Exponent(product_modulo(q, x.0, y.0))
}

// The inverse modulo a prime q: from q = d x + r, x (q - d) is r modulo q, and r is less than x.
pub fn inverted(q: u16, x: Exponent) -> Exponent
    requires { 0 < q }
    ensures { result ≡ exponent (inverse q x.0) }
{
    if x.0 <= 1 {
        return Exponent(1);
    }
    let d = q / x.0;
    let rest = inverted(q, Exponent(q % x.0));
    product(q, Exponent(q - d), rest)
}

// ---- elements

// Elements are multiplied modulo p.
pub fn times(p: u16, x: Element, y: Element) -> Element
    requires { 0 < p }
    ensures { result ≡ element ((x.0 * y.0) % p) }
{
    Element(product_modulo(p, x.0, y.0))
}

// e^x modulo p, by squaring. A `while`: the exponent is halved and nothing is counted.
pub fn power(p: u16, e: Element, x: Exponent) -> Element
    requires { 0 < p }
    ensures { result ≡ element (e.0 ^ x.0 % p) }
{
    let mut base = e;
    let mut left = x.0;
    let mut made = Element(1 % p);
    while 0 < left {
        if left % 2 == 1 {
            made = times(p, made, base);
        }
        base = times(p, base, base);
        left /= 2;
    }
    made
}

// g to the one times h to the other.
pub fn commit(group: Group, x: Exponent, y: Exponent) -> Element
    requires { 0 < group.p }
    ensures { result ≡ element (committed group x.0 y.0) }
{
    times(
        group.p,
        power(group.p, group.g, x),
        power(group.p, group.h, y),
    )
}

// Refusal 8 does not hold of this entry. Its number is tested, and no element is made to compare it with.
#[tactic(auto, unfolding(rules::specs::Dealing::in_group))]
pub fn is_element(group: Group, e: Element) -> bool
    requires { 0 < group.p }
    ensures { result ≡ in_group group e.0 }
{
    e.0 != 0 && e.0 < group.p && power(group.p, e, Exponent(group.q)).0 == 1
}

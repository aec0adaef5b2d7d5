// Readers: the tests of refusals 2 and 3, and what stands in a message that passes them.
#![tactic(auto)]

ghost use Rattle.std.specs.Prelude.{◌≡◌, ◌+◌, ◌*◌, ◌≤◌, length};
ghost use Rattle.rules.specs.Numbers.{exponent};
ghost use Rattle.rules.specs.Matrices.{row};
ghost use Rattle.rules.specs.Messages.{word, whole_length, malformed, foreign, end_place, matrix_in, polynomials_in, four_in, pair_in, message_in};
ghost use Rattle.rules.specs.Laws.RoundTrip.{Formed};

use rules::{Element, Exponent, Four, Message, Number, Pair, Polynomials, SetUp};

// The two-byte number at p, high byte first.
#[tactic(auto, unfolding(rules::specs::Messages::word))]
fn number(s: &[u8], p: usize) -> u16
    requires { p + 2 ≤ length s.now }
    ensures { result ≡ word s.now p }
{
    u16::from_be_bytes([s[p], s[p + 1]])
}

// The one at p as an exponent.
fn exponent_at(s: &[u8], p: usize) -> Exponent
    requires { p + 2 ≤ length s.now }
    ensures { result ≡ exponent (word s.now p) }
{
    Exponent(number(s, p))
}

// ---- refusals 2 and 3

// Where what a send, an echo or a ready ends with begins.
#[tactic(auto, using(rules::proofs::Laws::Matrices::square_small))]
fn end_place(u: SetUp) -> usize
    requires { u.k ≤ 8 }
    ensures { (result ≡ end_place u) × (result ≤ 135) }
{
    let k = u.k as usize;
    7 + 2 * (k * k)
}

// The whole length of a message with this tag, a number, since `Messages.whole_length` is over any.
#[tactic(auto, unfolding(rules::specs::Messages::whole_length))]
pub fn whole_length(u: SetUp, tag: u8) -> usize
    requires { u.k ≤ 8 }
    ensures { result ≡ whole_length u tag }
{
    match tag {
        1 => end_place(u) + 8 * u.k as usize,
        4 => 10,
        _ => end_place(u) + 8,
    }
}

// Refusal 2.
#[tactic(auto, using(rules::proofs::Laws::Lengths::whole_length_least), unfolding(rules::specs::Messages::malformed, rules::specs::Messages::has_matrix))]
pub fn is_malformed(s: &[u8], u: SetUp) -> bool
    requires { u.k ≤ 8 }
    ensures { result ≡ malformed u s.now }
{
    let n = s.len();
    n < 3
        || !matches!(s[0], 1..=4)
        || usize::from(number(s, 1)) != n - 3
        || n != whole_length(u, s[0])
        || s[0] <= 3 && u32::from(s[6]) != u.k
}

// Refusal 3, of a message that is not malformed.
#[tactic(auto, unfolding(rules::specs::Messages::foreign))]
pub fn is_foreign(s: &[u8], u: SetUp) -> bool
    requires { 6 ≤ length s.now }
    ensures { result ≡ foreign u s.now }
{
    u32::from(s[3]) != u.d || u32::from(number(s, 4)) != u.session
}

// ---- what stands where

// k numbers from p on, and zeros behind.
#[tactic(auto, using(folds::specs::Loops::filling_more, folds::specs::Loops::filling_all), unfolding(rules::specs::Matrices::row))]
fn read_row<T: Number>(s: &[u8], p: usize, k: usize) -> [T; 8]
    requires { (k ≤ 8) × (p + 2 * k ≤ length s.now) }
    ensures { result ≡ row k (T.wrap 0) (λ l. T.wrap (word s.now (p + 2 * l))) }
{
    let mut made = [T::new(0); 8];
    for l in 0..k {
        made[l] = T::new(number(s, p + 2 * l));
    }
    made
}

// The matrix of a send, an echo or a ready.
#[tactic(auto, using(folds::specs::Loops::filling_more, folds::specs::Loops::filling_all), unfolding(rules::specs::Messages::matrix_in, rules::specs::Matrices::matrix))]
pub fn read_matrix(s: &[u8], u: SetUp) -> [[Element; 8]; 8]
    requires { (u.k ≤ 8) × (end_place u ≤ length s.now) }
    ensures { result ≡ matrix_in u s.now }
{
    let k = u.k as usize;
    let mut c = [[Element(0); 8]; 8];
    for j in 0..k {
        c[j] = read_row(s, 7 + 2 * (j * k), k);
    }
    c
}

// What a send ends with.
pub fn read_polynomials(s: &[u8], u: SetUp) -> Polynomials
    requires { (u.k ≤ 8) × (end_place u + 8 * u.k ≤ length s.now) }
    ensures { result ≡ polynomials_in u s.now }
{
    let k = u.k as usize;
    let p = end_place(u);
    Polynomials {
        a: read_row(s, p, k),
        a2: read_row(s, p + 2 * k, k),
        b: read_row(s, p + 4 * k, k),
        b2: read_row(s, p + 6 * k, k),
    }
}

// What an echo or a ready ends with.
#[tactic(auto, unfolding(rules::specs::Messages::four_in))]
pub fn read_four(s: &[u8], u: SetUp) -> Four
    requires { (u.k ≤ 8) × (end_place u + 8 ≤ length s.now) }
    ensures { result ≡ four_in u s.now }
{
    let p = end_place(u);
    Four {
        alpha: exponent_at(s, p),
        alpha2: exponent_at(s, p + 2),
        beta: exponent_at(s, p + 4),
        beta2: exponent_at(s, p + 6),
    }
}

// What a recovery share ends with.
#[tactic(auto, unfolding(rules::specs::Messages::pair_in))]
pub fn read_pair(s: &[u8]) -> Pair
    requires { 10 ≤ length s.now }
    ensures { result ≡ pair_in s.now }
{
    Pair {
        first: exponent_at(s, 6),
        second: exponent_at(s, 8),
    }
}

// What a message that is not malformed says.
#[tactic(auto, using(rules::proofs::Laws::RoundTrip::send_long, rules::proofs::Laws::RoundTrip::point_long, rules::proofs::Laws::RoundTrip::matrix_long, rules::proofs::Laws::RoundTrip::share_long), unfolding(rules::specs::Messages::message_in))]
pub fn read(s: &[u8], u: SetUp) -> Message
    requires { (u.k ≤ 8) × Formed u s.now }
    ensures { result ≡ message_in u s.now }
{
    match s[0] {
        1 => Message::Send(read_matrix(s, u), read_polynomials(s, u)),
        2 => Message::Echo(read_matrix(s, u), read_four(s, u)),
        3 => Message::Ready(read_matrix(s, u), read_four(s, u)),
        _ => Message::Recovery(read_pair(s)),
    }
}

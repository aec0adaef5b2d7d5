// Writers. One that puts numbers gets a slice and a place, and hands the place behind them back: document 01 names the form, the
// buffer's mutable tail, and so no page. One that writes a message gets the tail of the outgoing buffer, writes the message at its
// front and hands its length back; the bytes behind keep their values. One that writes to every box writes n messages, each directly
// behind the one before.
#![tactic(auto)]

ghost use Rattle.std.specs.Prelude.{[], ◌∷◌, ◌++◌, ℕ, ◌+◌, ◌-◌, ◌*◌, ◌<◌, ◌≤◌, length, get_or};
ghost use Rattle.folds.specs.Runs.{gather};
ghost use Rattle.rules.specs.declared.Message.{Message};
ghost use Rattle.rules.specs.declared.Message.TheVariants.{Send as send, Recovery as recovery};
ghost use Rattle.rules.specs.Messages.{two_bytes, matrix_bytes, polynomial_bytes, saying, bytes_of, end_place, to_each};
ghost use Rattle.rules.specs.Matrices.{zero_four};
ghost use Rattle.rules.specs.Laws.RoundTrip.{SetUpFits};
ghost use Rattle.message_writing.specs.Written.{head_bytes, opening_bytes, to_box, no_polynomials, Puts, Writes, EachWrites, CanSend};

use rules::{Element, Exponent, Four, Number, Pair, Polynomials, SetUp, Side};

fn put_byte(out: &mut [u8], at: usize, x: u8) -> usize
    requires { at < length out.old }
    ensures { Puts at 1 (x ∷ []) out.old out.new result }
{
    out[at] = x;
    at + 1
}

// A number, high byte first.
#[tactic(auto, using(crate::specs::Laws::puts_copied), unfolding(rules::specs::Messages::two_bytes))]
fn put_number(out: &mut [u8], at: usize, x: u16) -> usize
    requires { at + 2 ≤ length out.old }
    ensures { Puts at 2 (two_bytes x) out.old out.new result }
{
    out[at..at + 2].copy_from_slice(&x.to_be_bytes());
    at + 2
}

// ---- parts of a message

// The first k numbers of a row.
fn put_row<T: Number>(out: &mut [u8], at: usize, row: [T; 8], k: usize) -> usize
    requires { (k ≤ 8) × (at + 2 * k ≤ length out.old) }
    ensures { Puts at (k * 2) (gather k (λ l. two_bytes (T.value (get_or row l (T.wrap 0))))) out.old out.new result }
{
    let mut next = at;
    for x in &row[..k] {
        next = put_number(out, next, x.get());
    }
    next
}

// The first k rows of a matrix.
#[tactic(auto, using(crate::specs::Laws::put_all), unfolding(rules::specs::Messages::matrix_bytes))]
fn put_matrix(out: &mut [u8], at: usize, c: [[Element; 8]; 8], k: usize) -> usize
    requires { (k ≤ 8) × (at + 2 * (k * k) ≤ length out.old) }
    ensures { Puts at (k * (k * 2)) (matrix_bytes k c) out.old out.new result }
{
    let mut next = at;
    for row in &c[..k] {
        next = put_row(out, next, *row, k);
    }
    next
}

fn put_polynomials(out: &mut [u8], at: usize, u: SetUp, all: Polynomials) -> usize
    requires { (u.k ≤ 8) × (at + 8 * u.k ≤ length out.old) }
    ensures { Puts at (8 * u.k) (polynomial_bytes u all) out.old out.new result }
{
    let k = u.k as usize;
    let second = put_row(out, at, all.a, k);
    let third = put_row(out, second, all.a2, k);
    let fourth = put_row(out, third, all.b, k);
    put_row(out, fourth, all.b2, k)
}

// Two numbers, one behind the other.
#[tactic(auto, using(crate::specs::Laws::puts_then), unfolding(rules::specs::Messages::two_bytes))]
fn put_two(out: &mut [u8], at: usize, first: Exponent, second: Exponent) -> usize
    requires { at + 4 ≤ length out.old }
    ensures { Puts at 4 (two_bytes first.0 ++ two_bytes second.0) out.old out.new result }
{
    let next = put_number(out, at, first.0);
    put_number(out, next, second.0)
}

// Tag, size of the rest, dealer, session.
#[tactic(auto, using(crate::specs::Laws::puts_then), unfolding(crate::specs::Written::head_bytes, rules::specs::Messages::two_bytes))]
fn put_head(out: &mut [u8], u: SetUp, tag: u8, size: u16) -> usize
    requires { SetUpFits u × (6 ≤ length out.old) }
    ensures { Puts 0 6 (head_bytes u tag size) out.old out.new result }
{
    let second = put_byte(out, 0, tag);
    let third = put_number(out, second, size);
    let fourth = put_byte(out, third, u.d as u8);
    put_number(out, fourth, u.session as u16)
}

// The header, k and the matrix, of a message that ends with so many bytes behind them.
fn put_opening(out: &mut [u8], u: SetUp, tag: u8, end: u8, c: [[Element; 8]; 8]) -> usize
    requires { SetUpFits u × (199 ≤ length out.old) }
    ensures { Puts 0 (end_place u) (opening_bytes u tag end c) out.old out.new result × (result ≤ 135) }
{
    let k = u.k as usize;
    let size = 4 + 2 * (k * k) + usize::from(end);
    let second = put_head(out, u, tag, size as u16);
    let third = put_byte(out, second, u.k as u8);
    put_matrix(out, third, c, k)
}

// ---- a whole message

fn write_send(out: &mut [u8], u: SetUp, c: [[Element; 8]; 8], all: Polynomials) -> usize
    requires { SetUpFits u × (199 ≤ length out.old) }
    ensures { Writes (bytes_of u (send c all)) out.old out.new result × (result ≤ 199) }
{
    let next = put_opening(out, u, 1, 8 * u.k as u8, c);
    put_polynomials(out, next, u, all)
}

fn write_point(out: &mut [u8], u: SetUp, side: Side, c: [[Element; 8]; 8], four: Four) -> usize
    requires { SetUpFits u × (199 ≤ length out.old) }
    ensures { Writes (bytes_of u (saying side c four)) out.old out.new result × (result ≤ 199) }
{
    let next = put_opening(out, u, side.tag(), 8, c);
    let next = put_two(out, next, four.alpha, four.alpha2);
    put_two(out, next, four.beta, four.beta2)
}

fn write_share(out: &mut [u8], u: SetUp, pair: Pair) -> usize
    requires { SetUpFits u × (199 ≤ length out.old) }
    ensures { Writes (bytes_of u (recovery pair)) out.old out.new result × (result ≤ 199) }
{
    let next = put_head(out, u, 4, 7);
    put_two(out, next, pair.first, pair.second)
}

// ---- to each box

// What `write` writes for each box, one directly behind the other; box 1 is 0 to it. It gets the tail of the buffer.
fn write_each<F: Fn(&mut [u8], usize) -> usize>(out: &mut [u8], u: SetUp, write: F) -> usize
    requires can { CanSend u out.old }
    requires may { (b : _) (j : ℕ) → j < u.n → 199 ≤ length b.now → F.pre write b j }
    requires short { (b : _) (j r : ℕ) (b' : _) → F.post write b j r b' → r ≤ 199 }
    ensures { (g : ℕ → Message) → EachWrites u g (F.post write) → Writes (to_each u (λ i. g (i - 1))) out.old out.new result }
{
    let mut at: usize = 0;
    for j in 0..u.n as usize {
        at += write(&mut out[at..], j);
    }
    at
}

// A send to each box, with its polynomials; box 1's stand at 0.
pub fn write_sends(out: &mut [u8], u: SetUp, c: [[Element; 8]; 8], all: [Polynomials; 10]) -> usize
    requires { CanSend u out.old }
    ensures { Writes (to_each u (λ j. send c (to_box all no_polynomials j))) out.old out.new result }
{
    write_each(out, u, |tail, j| write_send(tail, u, c, all[j]))
}

// An echo or a ready to each box, with its point; box 1's stands at 0.
pub fn write_points(
    out: &mut [u8],
    u: SetUp,
    side: Side,
    c: [[Element; 8]; 8],
    fours: [Four; 10],
) -> usize
    requires { CanSend u out.old }
    ensures { Writes (to_each u (λ j. saying side c (to_box fours zero_four j))) out.old out.new result }
{
    write_each(out, u, |tail, j| write_point(tail, u, side, c, fours[j]))
}

// The same recovery share to each box.
pub fn write_shares(out: &mut [u8], u: SetUp, pair: Pair) -> usize
    requires { CanSend u out.old }
    ensures { Writes (to_each u (λ j. recovery pair)) out.old out.new result }
{
    write_each(out, u, |tail, _| write_share(tail, u, pair))
}

// The parts of what a message says.
ghost use Rattle.std.specs.Prelude.{◌++◌, ◌+◌, ◌≤◌, length};
ghost use Rattle.rules.specs.Matrices.{coefficient};
ghost use Rattle.arrayvec.specs.ArrayVec.{array_vec_len};
ghost use Rattle.text.specs.Pages.{Adds};
ghost use Rattle.console_page.specs.Reading.{numbers_text, row_number, entries_text, matrix_text, polynomials_text, four_text};

use arrayvec::ArrayVec;
use rules::{Element, Exponent, Four, Polynomials};

// The k entries of a row: a line of its own, under this crate's definition of its text.
fn put_row<const N: usize>(page: &mut ArrayVec<u8, N>, k: usize, row: [Element; 8])
    requires { (k ≤ 8) × (array_vec_len page.old + 48 ≤ N) }
    ensures { Adds page.old (numbers_text k (row_number row)) 48 page.new }
{
    text::page::put_numbers(page, &row.map(|x| x.0)[..k]);
}

// A word, and the k coefficients of a polynomial.
fn put_polynomial<const N: usize>(
    page: &mut ArrayVec<u8, N>,
    word: &[u8],
    k: usize,
    a: [Exponent; 8],
)
    requires { (k ≤ 8) × (array_vec_len page.old + length word.now + 48 ≤ N) }
    ensures { Adds page.old (word.now ++ numbers_text k (coefficient a)) (length word.now + 48) page.new }
{
    text::page::put_word(page, word);
    text::page::put_numbers(page, &a.map(|x| x.0)[..k]);
}

#[tactic(auto, using(text::specs::Pages::runs_all), unfolding(crate::specs::Reading::entries_text))]
fn put_entries<const N: usize>(page: &mut ArrayVec<u8, N>, k: usize, c: [[Element; 8]; 8])
    requires { (k ≤ 8) × (array_vec_len page.old + 384 ≤ N) }
    ensures { Adds page.old (entries_text k c) 384 page.new }
{
    for row in &c[..k] {
        put_row(page, k, *row);
    }
}

#[tactic(auto, using(text::specs::Pages::adds_then), unfolding(crate::specs::Reading::matrix_text, rules::specs::Text::text))]
pub fn put_matrix<const N: usize>(page: &mut ArrayVec<u8, N>, k: u32, c: [[Element; 8]; 8])
    requires { (k ≤ 8) × (array_vec_len page.old + 399 ≤ N) }
    ensures { Adds page.old (matrix_text k c) 399 page.new }
{
    text::page::put_numbered(page, b" k ", k as u16);
    text::page::put_word(page, b" matrix");
    put_entries(page, k as usize, c);
}

#[tactic(auto, using(text::specs::Pages::adds_then), unfolding(crate::specs::Reading::polynomials_text, rules::specs::Text::text))]
pub fn put_polynomials<const N: usize>(page: &mut ArrayVec<u8, N>, k: u32, p: Polynomials)
    requires { (k ≤ 8) × (array_vec_len page.old + 202 ≤ N) }
    ensures { Adds page.old (polynomials_text k p) 202 page.new }
{
    put_polynomial(page, b" a", k as usize, p.a);
    put_polynomial(page, b" a'", k as usize, p.a2);
    put_polynomial(page, b" b", k as usize, p.b);
    put_polynomial(page, b" b'", k as usize, p.b2);
}

#[tactic(auto, using(text::specs::Pages::adds_then), unfolding(crate::specs::Reading::four_text, rules::specs::Text::text))]
pub fn put_four<const N: usize>(page: &mut ArrayVec<u8, N>, f: Four)
    requires { array_vec_len page.old + 35 ≤ N }
    ensures { Adds page.old (four_text f) 35 page.new }
{
    crate::numbers::put_two(page, b" alpha ", f.alpha.0, f.alpha2.0);
    crate::numbers::put_two(page, b" beta ", f.beta.0, f.beta2.0);
}

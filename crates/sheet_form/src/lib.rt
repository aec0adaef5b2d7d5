// The parts of a sheet, read where they stand; a part is read once its form has passed.
#![tactic(auto)]

ghost use Rattle.std.specs.Prelude.{◌≡◌, true, ◌<◌};
ghost use Rattle.rules.specs.Sheet.{sheet_set_up, matrix_place, sheet_matrix, boxes_place, sheet_shares, first_line_keeps, rest_keeps};
ghost use Rattle.sheet_form.specs.Reading.{FirstLine, Entries, Whole, line_in, sheet_row};

use rules::{Element, Exponent, Pair, SetUp};

// A sheet has at most so many bytes.
pub const BYTES: usize = 4_096;

// ---- the first line

// It stands, in a text of the size of a sheet.
#[tactic(auto, unfolding(rules::specs::Sheet::first_line_keeps, rules::specs::Text::text))]
pub fn first_line_keeps(b: &[u8]) -> bool
    ensures { result ≡ first_line_keeps b.now }
{
    b.len() <= BYTES && text::read::word_at(b, 0, b"sheet ") && text::read::numbers_at(b, 6, 4)
}

// Its numbers.
#[tactic(auto, using(crate::specs::Laws::first_numbers), unfolding(rules::specs::Sheet::sheet_set_up))]
pub fn set_up(b: &[u8]) -> SetUp
    requires { first_line_keeps b.now ≡ true }
    ensures { result ≡ sheet_set_up b.now }
{
    SetUp {
        group: u32::from(text::read::number_at(b, 6, 4, 0)),
        n: u32::from(text::read::number_at(b, 6, 4, 1)),
        t: u32::from(text::read::number_at(b, 6, 4, 2)),
        k: u32::from(text::read::number_at(b, 6, 4, 3)),
        i: 0,
        d: 0,
        session: 0,
    }
}

// ---- the line of a box

// What a box says, and where the line behind its line starts.
#[derive(Clone, Copy)]
struct Line {
    said: Option<Pair>,
    next: usize,
}

// The line of box m + 1, if it stands from i on.
#[tactic(auto, using(crate::specs::Laws::no_number, crate::specs::Laws::other_number, crate::specs::Laws::no_space, crate::specs::Laws::silent_line, crate::specs::Laws::no_pair, crate::specs::Laws::pair_line), unfolding(rules::specs::Text::text))]
fn line_at(b: &[u8], i: usize, m: usize) -> Option<Line>
    requires { m < 10 }
    ensures { result ≡ line_in b.now i m }
{
    let Ok(x) = text::read::decimal_at(b, i) else {
        return None;
    };
    if usize::from(x.number) != m + 1 || !text::read::byte_at(b, x.end, b' ') {
        return None;
    }
    let says = x.end + 1;
    if text::read::word_at(b, says, b"silent\n") {
        return Some(Line {
            said: None,
            next: says + 7,
        });
    }
    if !text::read::numbers_at(b, says, 2) {
        return None;
    }
    let first = Exponent(text::read::number_at(b, says, 2, 0));
    let second = Exponent(text::read::number_at(b, says, 2, 1));
    Some(Line {
        said: Some(Pair { first, second }),
        next: text::read::number_place(b, says, 2, 2),
    })
}

// ---- what stands behind the first line

// The matrix stands behind the first line, the lines of the boxes behind the matrix.
#[tactic(auto, using(crate::specs::Laws::first_numbers))]
fn matrix_place(b: &[u8]) -> usize
    requires { first_line_keeps b.now ≡ true }
    ensures { result ≡ matrix_place b.now }
{
    text::read::number_place(b, 6, 4, 4)
}

fn boxes_place(b: &[u8], k: usize) -> usize
    requires { Entries b.now k }
    ensures { result ≡ boxes_place b.now k }
{
    text::read::number_place(b, matrix_place(b), k * k, k * k)
}

// The matrix, a line for each of n boxes, and nothing behind them.
#[tactic(auto, using(crate::specs::Laws::some_line, crate::specs::Laws::line_place_more, folds::specs::Below::all_below_more), unfolding(rules::specs::Sheet::rest_keeps))]
pub fn rest_keeps(b: &[u8], n: usize, k: usize) -> bool
    requires { FirstLine b.now n k }
    ensures { result ≡ rest_keeps b.now n k }
{
    if !text::read::numbers_at(b, matrix_place(b), k * k) {
        return false;
    }
    let mut i = boxes_place(b, k);
    for m in 0..n {
        let Some(line) = line_at(b, i, m) else {
            return false;
        };
        i = line.next;
    }
    i == b.len()
}

// Row j of the matrix.
#[tactic(auto, using(folds::specs::Loops::filling_none, folds::specs::Loops::filling_more, folds::specs::Loops::filling_all), unfolding(crate::specs::Reading::sheet_row, rules::specs::Matrices::row))]
fn matrix_row(b: &[u8], k: usize, j: usize) -> [Element; 8]
    requires { Entries b.now k × (j < k) }
    ensures { result ≡ sheet_row b.now k j }
{
    let at = matrix_place(b);
    let mut row = [Element(0); SetUp::WIDTH];
    for l in 0..k {
        row[l] = Element(text::read::number_at(b, at, k * k, j * k + l));
    }
    row
}

// The matrix, once its entries stand.
#[tactic(auto, using(folds::specs::Loops::filling_none, folds::specs::Loops::filling_more, folds::specs::Loops::filling_all), unfolding(rules::specs::Sheet::sheet_matrix, rules::specs::Matrices::matrix, crate::specs::Reading::sheet_row))]
pub fn matrix(b: &[u8], k: usize) -> [[Element; 8]; 8]
    requires { Entries b.now k }
    ensures { result ≡ sheet_matrix b.now (matrix_place b.now) k }
{
    let mut c = [[Element(0); SetUp::WIDTH]; SetUp::WIDTH];
    for j in 0..k {
        c[j] = matrix_row(b, k, j);
    }
    c
}

// What boxes 1 to n say, once all has passed; box 1's stands at 0.
#[tactic(auto, using(crate::specs::Laws::whole_entries, crate::specs::Laws::whole_line, crate::specs::Laws::line_there, crate::specs::Laws::some_line, crate::specs::Laws::line_place_more, folds::specs::Loops::filling_none, folds::specs::Loops::filling_more, folds::specs::Loops::filling_all), unfolding(rules::specs::Sheet::sheet_shares))]
pub fn shares(b: &[u8], n: usize, k: usize) -> [Option<Pair>; 10]
    requires { Whole b.now n k }
    ensures { result ≡ sheet_shares b.now (boxes_place b.now k) n }
{
    let mut said = [None; SetUp::BOXES];
    let mut i = boxes_place(b, k);
    for m in 0..n {
        let line = line_at(b, i, m).unwrap();
        said[m] = line.said;
        i = line.next;
    }
    said
}

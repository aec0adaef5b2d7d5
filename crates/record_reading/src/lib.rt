// Reading the record: what a place holds, who is heard, the counts, and whether a slot has a matrix.
#![tactic(auto)]

ghost use Rattle.std.specs.Prelude.{◌≡◌, ◌≤◌};
ghost use Rattle.rules.specs.Record.{heard_for, is_held, shares_kept, same_matrix};
ghost use Rattle.rules.specs.Laws.Shape.{HasMark};
ghost use Rattle.record_reading.specs.Slots.{count_marks, same_row, has_matrix};

use rules::{Element, Marks, Pair, Place, Point, Record, Slot};

// Silence is a case of its own: a point of zeros is held.
pub fn is_held(place: Place) -> bool
    ensures { result ≡ is_held place.point }
{
    match place.point {
        Point::Silent => false,
        Point::Held(_) => true,
    }
}

// Whether sender m + 1 is heard for the tag, a number as in `heard_for`.
pub fn is_heard(x: Record, tag: u8, m: usize) -> bool
    requires { HasMark tag m }
    ensures { result ≡ heard_for x tag m }
{
    x.heard[usize::from(tag) - 1].at[m]
}

// How many recovery shares are kept.
pub fn count_shares(shares: [Option<Pair>; 10]) -> u32
    ensures { result ≡ shares_kept shares }
{
    shares.iter().filter(|share| share.is_some()).count() as u32
}

// How many of the ten marks stand: e or r.
pub fn count_marks(marks: Marks) -> u32
    ensures { result ≡ count_marks marks }
{
    marks.at.iter().filter(|mark| **mark).count() as u32
}

fn same_row(k: usize, a: [Element; 8], b: [Element; 8]) -> bool
    requires { k ≤ 8 }
    ensures { result ≡ same_row k a b }
{
    (0..k).all(|l| a[l] == b[l])
}

fn same_matrix(k: usize, c: [[Element; 8]; 8], d: [[Element; 8]; 8]) -> bool
    requires { k ≤ 8 }
    ensures { result ≡ same_matrix k c d }
{
    (0..k).all(|j| same_row(k, c[j], d[j]))
}

// The slot is in use with this matrix.
#[tactic(auto, unfolding(rules::specs::Record::matrix_of))]
pub fn has_matrix(k: usize, slot: Slot, c: [[Element; 8]; 8]) -> bool
    requires { k ≤ 8 }
    ensures { result ≡ has_matrix k c slot }
{
    slot.used && same_matrix(k, slot.rows, c)
}

// The places in use, a line each: a place's counts and its matrix.
ghost use Rattle.std.specs.Prelude.{◌+◌, ◌<◌, ◌≤◌};
ghost use Rattle.arrayvec.specs.ArrayVec.{array_vec_len};
ghost use Rattle.text.specs.Pages.{Adds};
ghost use Rattle.console_shows.specs.Show.{row_text, matrix_text, counts_text, place_line, place_lines};

use arrayvec::ArrayVec;
use record_reading::count_marks;
use rules::{Element, SetUp, Slot};
use text::page::{put_numbered, put_numbers, put_word};

// As many entries of a row as the matrix has columns in use: a line of its own, under this crate's definition of its text.
fn put_row<const N: usize>(page: &mut ArrayVec<u8, N>, width: usize, row: [Element; 8])
    requires { (width ≤ 8) × (array_vec_len page.old + 48 ≤ N) }
    ensures { Adds page.old (row_text width row) 48 page.new }
{
    put_numbers(page, &row.map(|x| x.0)[..width]);
}

#[tactic(auto, using(text::specs::Pages::runs_all, crate::specs::Parts::min_least), unfolding(crate::specs::Show::matrix_text))]
fn put_matrix<const N: usize>(page: &mut ArrayVec<u8, N>, k: u32, c: [[Element; 8]; 8])
    requires { array_vec_len page.old + 384 ≤ N }
    ensures { Adds page.old (matrix_text k c) 384 page.new }
{
    let width = (k as usize).min(SetUp::WIDTH);
    for row in &c[..width] {
        put_row(page, width, *row);
    }
}

#[tactic(auto, using(text::specs::Pages::adds_then, crate::specs::Show::count_small), unfolding(crate::specs::Show::counts_text, rules::specs::Record::count_e, rules::specs::Record::count_r, record_reading::specs::Slots::count_marks, rules::specs::Text::text))]
fn put_counts<const N: usize>(page: &mut ArrayVec<u8, N>, s: usize, slot: Slot)
    requires { (s < 20) × (array_vec_len page.old + 27 ≤ N) }
    ensures { Adds page.old (counts_text s slot) 27 page.new }
{
    put_numbered(page, b"place ", s as u16);
    put_numbered(page, b" e ", count_marks(slot.echoed) as u16);
    put_numbered(page, b" r ", count_marks(slot.readied) as u16);
}

#[tactic(auto, using(text::specs::Pages::adds_then), unfolding(crate::specs::Show::place_line, rules::specs::Record::matrix_of, rules::specs::Text::text))]
fn put_place<const N: usize>(page: &mut ArrayVec<u8, N>, k: u32, s: usize, slot: Slot)
    requires { (s < 20) × (array_vec_len page.old + 419 ≤ N) }
    ensures { Adds page.old (place_line k s slot) 419 page.new }
{
    put_counts(page, s, slot);
    put_word(page, b" matrix");
    put_matrix(page, k, slot.rows);
    put_word(page, b"\n");
}

#[tactic(auto, using(text::specs::Pages::runs_all), unfolding(crate::specs::Show::place_lines))]
pub fn put_places<const N: usize>(page: &mut ArrayVec<u8, N>, k: u32, slots: [Slot; 20])
    requires { array_vec_len page.old + 8380 ≤ N }
    ensures { Adds page.old (place_lines k slots) 8380 page.new }
{
    for (s, slot) in slots.iter().enumerate() {
        if slot.used {
            put_place(page, k, s, *slot);
        }
    }
}

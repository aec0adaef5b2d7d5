// What the lines are made of. A writer adds its bytes to the page.
ghost use Rattle.std.specs.Prelude.{◌++◌, ◌+◌, ◌≤◌, length};
ghost use Rattle.arrayvec.specs.ArrayVec.{array_vec_len};
ghost use Rattle.folds.specs.Tests.{pick};
ghost use Rattle.text.specs.Pages.{Adds};
ghost use Rattle.console_shows.specs.Parts.{wide, widely, boxes_text, kept_text};

use arrayvec::ArrayVec;
use rules::{Marks, Pair};
use text::page::{put_digits, put_numbered, put_word};

// ---- numbers

// Up to ten digits: a set-up number of any record, sound or not.
#[tactic(auto, using(crate::specs::Parts::digits_wide))]
fn put_wide<const N: usize>(page: &mut ArrayVec<u8, N>, x: u32)
    requires { array_vec_len page.old + 10 ≤ N }
    ensures { Adds page.old (wide x) 10 page.new }
{
    put_digits(page, 9, x as usize);
}

#[tactic(auto, using(text::specs::Pages::adds_then))]
pub fn put_widely<const N: usize>(page: &mut ArrayVec<u8, N>, word: &[u8], x: u32)
    requires { array_vec_len page.old + length word.now + 10 ≤ N }
    ensures { Adds page.old (widely word.now x) (length word.now + 10) page.new }
{
    put_word(page, word);
    put_wide(page, x);
}

// ---- a word

// The first of two words where the test holds, and else the second.
#[tactic(auto, using(text::specs::Pages::adds_room))]
pub fn put_either<const N: usize>(page: &mut ArrayVec<u8, N>, holds: bool, yes: &[u8], no: &[u8])
    requires { array_vec_len page.old + length yes.now + length no.now ≤ N }
    ensures { Adds page.old (pick holds yes.now no.now) (length yes.now + length no.now) page.new }
{
    put_word(page, if holds { yes } else { no });
}

// ---- the boxes of a list

// The marked boxes, or that there are none.
#[tactic(auto, using(text::specs::Pages::runs_all, crate::specs::Parts::none_added), unfolding(crate::specs::Parts::boxes_text, rules::specs::Text::text))]
fn put_boxes<const N: usize>(page: &mut ArrayVec<u8, N>, marks: Marks)
    requires { array_vec_len page.old + 60 ≤ N }
    ensures { Adds page.old (boxes_text marks) 60 page.new }
{
    let before = page.len();
    for (m, &marked) in marks.at.iter().enumerate() {
        if marked {
            put_numbered(page, b" ", m as u16 + 1);
        }
    }
    if page.len() == before {
        put_word(page, b" none");
    }
}

// A word and the boxes behind it.
#[tactic(auto, using(text::specs::Pages::adds_then))]
pub fn put_listed<const N: usize>(page: &mut ArrayVec<u8, N>, word: &[u8], marks: Marks)
    requires { array_vec_len page.old + length word.now + 60 ≤ N }
    ensures { Adds page.old (word.now ++ boxes_text marks) (length word.now + 60) page.new }
{
    put_word(page, word);
    put_boxes(page, marks);
}

// ---- a pair

// A word and the pair that is kept; or the line that there is none.
#[tactic(auto, using(text::specs::Pages::adds_then, text::specs::Pages::adds_room), unfolding(rules::specs::Text::text))]
pub fn put_kept<const N: usize>(
    page: &mut ArrayVec<u8, N>,
    word: &[u8],
    none: &[u8],
    kept: Option<Pair>,
)
    requires { array_vec_len page.old + length word.now + length none.now + 12 ≤ N }
    ensures { Adds page.old (kept_text word.now none.now kept) (length word.now + length none.now + 12) page.new }
{
    match kept {
        None => put_word(page, none),
        Some(pair) => {
            put_numbered(page, word, pair.first.0);
            put_numbered(page, b" ", pair.second.0);
            put_word(page, b"\n");
        }
    }
}

// Why a line is bad, and the line that says so.
ghost use Rattle.std.specs.Prelude.{◌+◌, ◌≤◌};
ghost use Rattle.arrayvec.specs.ArrayVec.{array_vec_len};
ghost use Rattle.text.specs.Pages.{Adds};
ghost use Rattle.console_lines.specs.Reasons.{reason_line};

use arrayvec::ArrayVec;
use text::page::{put_numbered, put_word};

// The first that holds; places and items are counted from 1.
#[derive(Clone, Copy)]
pub enum Reason {
    TooLong,
    CutOff,
    Byte { value: u8, at: u16 },
    Space(u16),
    NoSuchWord,
    Items,
    Item(u16),
}

#[tactic(auto, using(text::specs::Pages::adds_then, text::specs::Pages::adds_room), unfolding(rules::specs::Text::text))]
pub fn put<const N: usize>(page: &mut ArrayVec<u8, N>, reason: Reason)
    requires { array_vec_len page.old + 30 ≤ N }
    ensures { Adds page.old (reason_line reason) 30 page.new }
{
    match reason {
        Reason::TooLong => put_word(page, b"bad line: too long\n"),
        Reason::CutOff => put_word(page, b"bad line: cut off\n"),
        Reason::Byte { value, at } => {
            put_numbered(page, b"bad line: byte ", u16::from(value));
            put_numbered(page, b" at ", at);
            put_word(page, b"\n");
        }
        Reason::Space(place) => {
            put_numbered(page, b"bad line: space at ", place);
            put_word(page, b"\n");
        }
        Reason::NoSuchWord => put_word(page, b"bad line: no such word\n"),
        Reason::Items => put_word(page, b"bad line: items\n"),
        Reason::Item(j) => {
            put_numbered(page, b"bad line: item ", j);
            put_word(page, b"\n");
        }
    }
}

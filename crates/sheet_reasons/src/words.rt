// What is said of a bad sheet, in words.
ghost use Rattle.std.specs.Prelude.{◌+◌, ◌≤◌};
ghost use Rattle.rules.specs.Text.{decimal};
ghost use Rattle.arrayvec.specs.ArrayVec.{array_vec_len};
ghost use Rattle.text.specs.Pages.{Adds};
ghost use Rattle.sheet_reasons.specs.Reasons.{reason_text, line_text, sheet_bad, bad_text};

use crate::bad::{Bad, sheet_bad};
use crate::reasons::Reason;
use arrayvec::ArrayVec;
use text::page::{put_digits, put_word};

#[tactic(auto, using(text::specs::Pages::adds_room), unfolding(crate::specs::Reasons::reason_text, rules::specs::Text::text))]
fn put_reason<const N: usize>(page: &mut ArrayVec<u8, N>, reason: Reason)
    requires { array_vec_len page.old + 50 ≤ N }
    ensures { Adds page.old (reason_text reason) 50 page.new }
{
    match reason {
        Reason::Missing => put_word(page, b"missing\n"),
        Reason::CarriageReturn => put_word(page, b"a carriage return\n"),
        Reason::NoNewline => put_word(page, b"no newline at its end\n"),
        Reason::TwoSpaces => put_word(page, b"two spaces\n"),
        Reason::SpaceAtEdge => put_word(page, b"a space at its start or end\n"),
        Reason::NotSheet => put_word(page, b"another word than sheet\n"),
        Reason::OutOfOrder => put_word(page, b"a box out of order\n"),
        Reason::NotSilent => put_word(page, b"another word than silent\n"),
        Reason::TooFew => put_word(page, b"too few numbers\n"),
        Reason::TooMany => put_word(page, b"too many numbers\n"),
        Reason::NoDecimal => {
            put_word(page, b"not a decimal up to 65,535 without leading zeros\n");
        }
        Reason::LineTooMany => put_word(page, b"a line too many\n"),
    }
}

// The number of the line behind so many others.
#[tactic(auto, unfolding(rules::specs::Text::decimal, text::specs::Pages::digits))]
fn put_number<const N: usize>(page: &mut ArrayVec<u8, N>, before: u16)
    requires { array_vec_len page.old + 5 ≤ N }
    ensures { Adds page.old (decimal (before + 1)) 5 page.new }
{
    put_digits(page, 4, usize::from(before) + 1);
}

// The line behind so many others, and what is wrong with it.
#[tactic(auto, using(text::specs::Pages::adds_then), unfolding(crate::specs::Reasons::line_text, rules::specs::Text::text))]
fn put_line<const N: usize>(page: &mut ArrayVec<u8, N>, before: u16, reason: Reason)
    requires { array_vec_len page.old + 69 ≤ N }
    ensures { Adds page.old (line_text before reason) 69 page.new }
{
    put_word(page, b"sheet: line ");
    put_number(page, before);
    put_word(page, b": ");
    put_reason(page, reason);
}

// A page has so many bytes at least.
pub const PAGE: usize = 128;

// The line for the sheet b, or nothing.
#[tactic(auto, using(text::specs::Pages::adds_room, text::specs::Pages::adds_none), unfolding(crate::specs::Reasons::bad_text, rules::specs::Text::text, crate::specs::Reasons::line_text))]
pub fn put<const N: usize>(b: &[u8], page: &mut ArrayVec<u8, N>)
    requires { array_vec_len page.old + 128 ≤ N }
    ensures { Adds page.old (bad_text (sheet_bad b.now)) 128 page.new }
{
    match sheet_bad(b) {
        None => {}
        Some(Bad::TooLong) => put_word(page, b"sheet: over 4,096 bytes\n"),
        Some(Bad::Line { before, reason }) => put_line(page, before, reason),
    }
}

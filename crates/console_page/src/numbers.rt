// Numbers on the page.
ghost use Rattle.std.specs.Prelude.{◌++◌, ◌+◌, ◌≤◌, length};
ghost use Rattle.arrayvec.specs.ArrayVec.{array_vec_len};
ghost use Rattle.text.specs.Pages.{Adds};
ghost use Rattle.console_page.specs.Numerals.{two_text, numeral};

use arrayvec::ArrayVec;

// A word, and two numbers behind it.
#[tactic(auto, using(text::specs::Pages::adds_then), unfolding(crate::specs::Numerals::two_text, rules::specs::Text::text))]
pub fn put_two<const N: usize>(page: &mut ArrayVec<u8, N>, word: &[u8], x: u16, y: u16)
    requires { array_vec_len page.old + length word.now + 11 ≤ N }
    ensures { Adds page.old (word.now ++ two_text x y) (length word.now + 11) page.new }
{
    text::page::put_numbered(page, word, x);
    text::page::put_numbered(page, b" ", y);
}

// Any number: twenty digits at most.
#[tactic(auto, unfolding(crate::specs::Numerals::numeral, text::specs::Pages::digits))]
pub fn put_number<const N: usize>(page: &mut ArrayVec<u8, N>, x: usize)
    requires { array_vec_len page.old + 20 ≤ N }
    ensures { Adds page.old (numeral x) 20 page.new }
{
    text::page::put_digits(page, 19, x);
}

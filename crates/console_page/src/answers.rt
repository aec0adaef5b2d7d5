// What is written for a call: the line of its answer, and its messages; and for `lend`.
ghost use Rattle.std.specs.Prelude.{◌+◌, ◌*◌, ◌≤◌, length};
ghost use Rattle.arrayvec.specs.ArrayVec.{array_vec_len};
ghost use Rattle.text.specs.Pages.{Adds};
ghost use Rattle.console_page.specs.Answers.{
  sent_text,
  flag_text,
  told_text,
  answer_line,
  message_line,
  each_line,
  message_lines,
  call_lines,
  lent_line,
};

use arrayvec::ArrayVec;
use rules::{Answer, Sent};

// ---- the line of an answer

#[tactic(auto, using(text::specs::Pages::adds_room), unfolding(crate::specs::Answers::sent_text, rules::specs::Text::text))]
fn put_sent<const N: usize>(page: &mut ArrayVec<u8, N>, sent: Sent)
    requires { array_vec_len page.old + 9 ≤ N }
    ensures { Adds page.old (sent_text sent) 9 page.new }
{
    match sent {
        Sent::Nothing => text::page::put_word(page, b" nothing"),
        Sent::Send => text::page::put_word(page, b" send"),
        Sent::Echo => text::page::put_word(page, b" echo"),
        Sent::Ready => text::page::put_word(page, b" ready"),
        Sent::Recovery => text::page::put_word(page, b" recovery"),
    }
}

#[tactic(auto, using(text::specs::Pages::adds_room), unfolding(crate::specs::Answers::flag_text, rules::specs::Text::text))]
fn put_flag<const N: usize>(page: &mut ArrayVec<u8, N>, flag: bool)
    requires { array_vec_len page.old + 4 ≤ N }
    ensures { Adds page.old (flag_text flag) 4 page.new }
{
    text::page::put_word(page, if flag { b" yes" } else { b" no" });
}

// answer NO SENT BYTES
#[tactic(auto, using(text::specs::Pages::adds_then), unfolding(crate::specs::Answers::told_text, rules::specs::Text::text))]
fn put_told<const N: usize>(page: &mut ArrayVec<u8, N>, a: Answer)
    requires { array_vec_len page.old + 42 ≤ N }
    ensures { Adds page.old (told_text a) 42 page.new }
{
    text::page::put_numbered(page, b"answer ", u16::from(a.no));
    put_sent(page, a.sent);
    text::page::put_word(page, b" ");
    crate::numbers::put_number(page, a.bytes);
}

#[tactic(auto, using(text::specs::Pages::adds_then), unfolding(crate::specs::Answers::answer_line, rules::specs::Text::text))]
pub fn put_answer<const N: usize>(page: &mut ArrayVec<u8, N>, a: Answer)
    requires { array_vec_len page.old + 63 ≤ N }
    ensures { Adds page.old (answer_line a) 63 page.new }
{
    put_told(page, a);
    put_flag(page, a.completed);
    put_flag(page, a.recovered);
    crate::numbers::put_two(page, b" ", a.pair.first.0, a.pair.second.0);
    text::page::put_word(page, b"\n");
}

// ---- the messages

// The message to box j.
#[tactic(auto, using(text::specs::Pages::adds_then), unfolding(crate::specs::Answers::message_line, rules::specs::Text::text))]
fn put_message<const N: usize>(page: &mut ArrayVec<u8, N>, j: u16, message: &[u8])
    requires { array_vec_len page.old + 10 + 2 * length message.now ≤ N }
    ensures { Adds page.old (message_line j message.now 0 (length message.now)) (10 + 2 * length message.now) page.new }
{
    text::page::put_numbered(page, b"to ", j);
    text::page::put_word(page, b" ");
    text::page::put_hex(page, message);
    text::page::put_word(page, b"\n");
}

// A line for each of n messages of one size.
#[tactic(auto, using(text::specs::Pages::runs_all), unfolding(crate::specs::Answers::each_line))]
fn put_each<const N: usize>(page: &mut ArrayVec<u8, N>, n: usize, size: usize, buffer: &[u8])
    requires { (n ≤ 10) × (n * size ≤ length buffer.now) × (array_vec_len page.old + 100 + 2 * length buffer.now ≤ N) }
    ensures { Adds page.old (each_line n size buffer.now) (100 + 2 * length buffer.now) page.new }
{
    for j in 0..n {
        let from = j * size;
        put_message(page, (j + 1) as u16, &buffer[from..from + size]);
    }
}

// The n messages of a call, of so many bytes together.
#[tactic(auto, using(text::specs::Pages::adds_none), unfolding(crate::specs::Answers::message_lines))]
pub fn put_messages<const N: usize>(
    page: &mut ArrayVec<u8, N>,
    n: usize,
    bytes: usize,
    buffer: &[u8],
)
    requires { array_vec_len page.old + 100 + 2 * length buffer.now ≤ N }
    ensures { Adds page.old (message_lines n bytes buffer.now) (100 + 2 * length buffer.now) page.new }
{
    if 1 <= n && n <= 10 && 1 <= bytes && bytes <= buffer.len() {
        put_each(page, n, bytes / n, buffer);
    }
}

// ---- a call

// Its answer and its messages.
#[tactic(auto, using(text::specs::Pages::adds_then), unfolding(crate::specs::Answers::call_lines))]
pub fn put_call<const N: usize>(page: &mut ArrayVec<u8, N>, n: usize, a: Answer, buffer: &[u8])
    requires { array_vec_len page.old + 163 + 2 * length buffer.now ≤ N }
    ensures { Adds page.old (call_lines n a buffer.now) (163 + 2 * length buffer.now) page.new }
{
    put_answer(page, a);
    put_messages(page, n, a.bytes, buffer);
}

// What the console says to `lend`.
#[tactic(auto, using(text::specs::Pages::adds_then), unfolding(crate::specs::Answers::lent_line, rules::specs::Text::text))]
pub fn put_lent<const N: usize>(page: &mut ArrayVec<u8, N>, lent: usize)
    requires { array_vec_len page.old + 26 ≤ N }
    ensures { Adds page.old (lent_line lent) 26 page.new }
{
    text::page::put_word(page, b"lent ");
    crate::numbers::put_number(page, lent);
    text::page::put_word(page, b"\n");
}

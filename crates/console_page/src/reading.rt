// `read`: what a message says, whatever the box.
ghost use Rattle.std.specs.Prelude.{false, ◌≡◌, ◌+◌, ◌*◌, ◌≤◌, length};
ghost use Rattle.rules.specs.Messages.{word, malformed, end_place, matrix_in, polynomials_in, four_in, pair_in};
ghost use Rattle.arrayvec.specs.ArrayVec.{array_vec_len};
ghost use Rattle.text.specs.Pages.{Adds};
ghost use Rattle.console_page.specs.Reading.{
  of_width,
  width_in,
  head_text,
  send_line,
  point_line,
  share_line,
  said_line,
  read_line,
};

use arrayvec::ArrayVec;
use rules::SetUp;

// ---- its k

fn of_width(k: u32) -> SetUp
    ensures { result ≡ of_width k }
{
    SetUp { k, ..SetUp::ZERO }
}

// None for bytes that are no message.
fn width_in(s: &[u8]) -> Option<u32>
    ensures { result ≡ width_in s.now }
{
    (2..9).find(|&k| !message_reading::is_malformed(s, of_width(k)))
}

// ---- the line of each message

#[tactic(auto, unfolding(rules::specs::Messages::word))]
fn session_in(s: &[u8]) -> u16
    requires { 6 ≤ length s.now }
    ensures { result ≡ word s.now 4 }
{
    u16::from(s[4]) * 256 + u16::from(s[5])
}

// Its kind, dealer and session.
#[tactic(auto, using(text::specs::Pages::adds_then), unfolding(crate::specs::Reading::head_text, rules::specs::Text::text))]
fn put_head<const N: usize>(page: &mut ArrayVec<u8, N>, kind: &[u8], s: &[u8])
    requires { (6 ≤ length s.now) × (array_vec_len page.old + length kind.now + 19 ≤ N) }
    ensures { Adds page.old (head_text kind.now s.now) (length kind.now + 19) page.new }
{
    text::page::put_numbered(page, kind, u16::from(s[3]));
    text::page::put_numbered(page, b" session ", session_in(s));
}

#[tactic(auto, using(text::specs::Pages::adds_then), unfolding(crate::specs::Reading::send_line, rules::specs::Text::text))]
fn put_send<const N: usize>(page: &mut ArrayVec<u8, N>, s: &[u8], u: SetUp)
    requires { (u.k ≤ 8) × (end_place u + 8 * u.k ≤ length s.now) × (array_vec_len page.old + 633 ≤ N) }
    ensures { Adds page.old (send_line u s.now (matrix_in u s.now) (polynomials_in u s.now)) 633 page.new }
{
    put_head(page, b"send dealer ", s);
    crate::messages::put_matrix(page, u.k, message_reading::read_matrix(s, u));
    crate::messages::put_polynomials(page, u.k, message_reading::read_polynomials(s, u));
    text::page::put_word(page, b"\n");
}

// An echo or a ready.
#[tactic(auto, using(text::specs::Pages::adds_then), unfolding(crate::specs::Reading::point_line, rules::specs::Text::text))]
fn put_point<const N: usize>(page: &mut ArrayVec<u8, N>, kind: &[u8], s: &[u8], u: SetUp)
    requires { (u.k ≤ 8) × (end_place u + 8 ≤ length s.now) × (array_vec_len page.old + length kind.now + 454 ≤ N) }
    ensures { Adds page.old (point_line kind.now u s.now (matrix_in u s.now) (four_in u s.now)) (length kind.now + 454) page.new }
{
    put_head(page, kind, s);
    crate::messages::put_matrix(page, u.k, message_reading::read_matrix(s, u));
    crate::messages::put_four(page, message_reading::read_four(s, u));
    text::page::put_word(page, b"\n");
}

#[tactic(auto, using(text::specs::Pages::adds_then), unfolding(crate::specs::Reading::share_line, rules::specs::Text::text))]
fn put_share<const N: usize>(page: &mut ArrayVec<u8, N>, s: &[u8])
    requires { (10 ≤ length s.now) × (array_vec_len page.old + 54 ≤ N) }
    ensures { Adds page.old (share_line s.now (pair_in s.now)) 54 page.new }
{
    put_head(page, b"recovery dealer ", s);
    let pair = message_reading::read_pair(s);
    crate::numbers::put_two(page, b" share ", pair.first.0, pair.second.0);
    text::page::put_word(page, b"\n");
}

// ---- the line

fn put_said<const N: usize>(page: &mut ArrayVec<u8, N>, s: &[u8], u: SetUp)
    requires { (u.k ≤ 8) × (malformed u s.now ≡ false) × (array_vec_len page.old + 633 ≤ N) }
    ensures { Adds page.old (said_line u s.now) 633 page.new }
{
    match s[0] {
        1 => put_send(page, s, u),
        2 => put_point(page, b"echo dealer ", s, u),
        3 => put_point(page, b"ready dealer ", s, u),
        _ => put_share(page, s),
    }
}

// What these bytes say. The longest line is that of a send at k = 8.
pub fn put_read<const N: usize>(page: &mut ArrayVec<u8, N>, s: &[u8])
    requires { array_vec_len page.old + 633 ≤ N }
    ensures { Adds page.old (read_line s.now) 633 page.new }
{
    match width_in(s) {
        Some(k) => put_said(page, s, of_width(k)),
        None => text::page::put_word(page, b"no message\n"),
    }
}

// What the senders' places of one of the 20 places hold, a line a box.
ghost use Rattle.std.specs.Prelude.{◌+◌, ◌<◌, ◌≤◌};
ghost use Rattle.arrayvec.specs.ArrayVec.{array_vec_len};
ghost use Rattle.text.specs.Pages.{Adds};
ghost use Rattle.console_shows.specs.Points.{four_text, marks_text, point_text, point_line, point_lines, points_lines};

use crate::parts::put_either;
use arrayvec::ArrayVec;
use rules::{Four, Point, Record, SetUp, Slot};
use text::page::{put_decimal, put_numbered, put_word};

#[tactic(auto, using(text::specs::Pages::adds_then), unfolding(crate::specs::Points::four_text, rules::specs::Text::text))]
fn put_four<const N: usize>(page: &mut ArrayVec<u8, N>, four: Four)
    requires { array_vec_len page.old + 24 ≤ N }
    ensures { Adds page.old (four_text four) 24 page.new }
{
    put_numbered(page, b" ", four.alpha.0);
    put_numbered(page, b" ", four.alpha2.0);
    put_numbered(page, b" ", four.beta.0);
    put_numbered(page, b" ", four.beta2.0);
}

#[tactic(auto, using(text::specs::Pages::adds_then), unfolding(crate::specs::Points::marks_text, rules::specs::Text::text))]
fn put_marks<const N: usize>(page: &mut ArrayVec<u8, N>, echoed: bool, readied: bool)
    requires { array_vec_len page.old + 11 ≤ N }
    ensures { Adds page.old (marks_text echoed readied) 11 page.new }
{
    put_either(page, echoed, b" echo", b"");
    put_either(page, readied, b" ready", b"");
}

#[tactic(auto, using(text::specs::Pages::adds_then, text::specs::Pages::adds_room), unfolding(rules::specs::Text::text))]
fn put_point<const N: usize>(page: &mut ArrayVec<u8, N>, echoed: bool, readied: bool, point: Point)
    requires { array_vec_len page.old + 36 ≤ N }
    ensures { Adds page.old (point_text echoed readied point) 36 page.new }
{
    match point {
        Point::Silent => put_word(page, b" silent\n"),
        Point::Held(four) => {
            put_marks(page, echoed, readied);
            put_four(page, four);
            put_word(page, b"\n");
        }
    }
}

// Box m + 1.
#[tactic(auto, using(text::specs::Pages::adds_then), unfolding(crate::specs::Points::point_line))]
fn put_point_line<const N: usize>(page: &mut ArrayVec<u8, N>, slot: Slot, m: usize)
    requires { (m < 10) × (array_vec_len page.old + 41 ≤ N) }
    ensures { Adds page.old (point_line slot m) 41 page.new }
{
    put_decimal(page, m as u32 + 1);
    put_point(
        page,
        slot.echoed.at[m],
        slot.readied.at[m],
        slot.places[m].point,
    );
}

#[tactic(auto, using(text::specs::Pages::runs_all, crate::specs::Parts::min_least), unfolding(crate::specs::Points::point_lines))]
fn put_point_lines<const N: usize>(page: &mut ArrayVec<u8, N>, n: u32, slot: Slot)
    requires { array_vec_len page.old + 410 ≤ N }
    ensures { Adds page.old (point_lines n slot) 410 page.new }
{
    for m in 0..(n as usize).min(SetUp::BOXES) {
        put_point_line(page, slot, m);
    }
}

// Only the all-zero record has group 0.
#[tactic(auto, using(text::specs::Pages::adds_room), unfolding(crate::specs::Points::points_lines, rules::specs::Text::text))]
pub fn put_points<const N: usize>(page: &mut ArrayVec<u8, N>, x: Record, place: usize)
    requires { array_vec_len page.old + 410 ≤ N }
    ensures { Adds page.old (points_lines x place) 410 page.new }
{
    if x.setup.group == 0 {
        put_word(page, b"no box\n");
    } else if place < SetUp::SLOTS && x.slots[place].used {
        put_point_lines(page, x.setup.n, x.slots[place]);
    } else {
        put_word(page, b"no place\n");
    }
}

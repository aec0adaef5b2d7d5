// All that a record holds, but for the points of its places, which `points` puts.
ghost use Rattle.std.specs.Prelude.{◌≡◌, ◌+◌, ◌<◌, ◌≤◌};
ghost use Rattle.arrayvec.specs.ArrayVec.{array_vec_len};
ghost use Rattle.text.specs.Pages.{Adds};
ghost use Rattle.console_shows.specs.Show.{
  sizes_text,
  set_up_line,
  dealt_line,
  heard_line,
  completed_line,
  completion_line,
  kept_marks,
  kept_line,
  first_lines,
  last_lines,
  show_lines,
};

use crate::parts::{put_either, put_kept, put_listed, put_widely};
use crate::places::put_places;
use arrayvec::ArrayVec;
use rules::{Marks, Pair, Progress, Record, SetUp, Slot};
use text::page::{put_numbered, put_word};

#[tactic(auto, using(text::specs::Pages::adds_then), unfolding(crate::specs::Show::sizes_text, rules::specs::Text::text))]
fn put_sizes<const N: usize>(page: &mut ArrayVec<u8, N>, u: SetUp)
    requires { array_vec_len page.old + 39 ≤ N }
    ensures { Adds page.old (sizes_text u) 39 page.new }
{
    put_widely(page, b" n ", u.n);
    put_widely(page, b" t ", u.t);
    put_widely(page, b" k ", u.k);
}

#[tactic(auto, using(text::specs::Pages::adds_then), unfolding(crate::specs::Show::set_up_line, rules::specs::Text::text))]
fn put_set_up<const N: usize>(page: &mut ArrayVec<u8, N>, u: SetUp)
    requires { array_vec_len page.old + 108 ≤ N }
    ensures { Adds page.old (set_up_line u) 108 page.new }
{
    put_widely(page, b"box ", u.i);
    put_widely(page, b" group ", u.group);
    put_sizes(page, u);
    put_widely(page, b" dealer ", u.d);
    put_widely(page, b" session ", u.session);
    put_word(page, b"\n");
}

#[tactic(auto, using(text::specs::Pages::adds_none), unfolding(crate::specs::Show::dealt_line, rules::specs::Text::text))]
fn put_dealt<const N: usize>(page: &mut ArrayVec<u8, N>, u: SetUp, dealt: bool)
    requires { array_vec_len page.old + 16 ≤ N }
    ensures { Adds page.old (dealt_line u dealt) 16 page.new }
{
    if u.i == u.d {
        put_either(page, dealt, b"dealt\n", b"not dealt\n");
    }
}

// Tag 1 stands at 0.
#[tactic(auto, using(text::specs::Pages::adds_then), unfolding(crate::specs::Show::heard_line, crate::specs::Show::heard_text, rules::specs::Text::text))]
fn put_heard<const N: usize>(page: &mut ArrayVec<u8, N>, heard: [Marks; 4])
    requires { array_vec_len page.old + 271 ≤ N }
    ensures { Adds page.old (heard_line heard) 271 page.new }
{
    put_listed(page, b"heard send", heard[0]);
    put_listed(page, b" echo", heard[1]);
    put_listed(page, b" ready", heard[2]);
    put_listed(page, b" recovery", heard[3]);
    put_word(page, b"\n");
}

// ---- completion and recovery

#[tactic(auto, using(text::specs::Pages::adds_then), unfolding(crate::specs::Show::completed_line, rules::specs::Text::text))]
fn put_completed<const N: usize>(page: &mut ArrayVec<u8, N>, s: usize, kept: Option<Pair>)
    requires { (s < 20) × (array_vec_len page.old + 52 ≤ N) }
    ensures { Adds page.old (completed_line s kept) 52 page.new }
{
    put_numbered(page, b"completed place ", s as u16);
    put_kept(page, b" share ", b" share none\n", kept);
}

// The pair is kept in the place of the completed matrix.
#[tactic(auto, using(text::specs::Pages::adds_room), unfolding(rules::specs::Text::text))]
fn put_completion<const N: usize>(
    page: &mut ArrayVec<u8, N>,
    slots: [Slot; 20],
    completion: Option<usize>,
)
    requires { array_vec_len page.old + 52 ≤ N }
    ensures { Adds page.old (completion_line slots completion) 52 page.new }
{
    match completion {
        None => put_word(page, b"not completed\n"),
        Some(s) if s < SetUp::SLOTS => put_completed(page, s, slots[s].pair),
        Some(_) => put_word(page, b"completed no place\n"),
    }
}

// The boxes whose recovery share is kept.
fn kept_marks(shares: [Option<Pair>; 10]) -> Marks
    ensures { result ≡ kept_marks shares }
{
    Marks {
        at: shares.map(|share| share.is_some()),
    }
}

#[tactic(auto, using(text::specs::Pages::adds_then), unfolding(crate::specs::Show::kept_line, rules::specs::Text::text))]
fn put_kept_boxes<const N: usize>(page: &mut ArrayVec<u8, N>, shares: [Option<Pair>; 10])
    requires { array_vec_len page.old + 65 ≤ N }
    ensures { Adds page.old (kept_line shares) 65 page.new }
{
    put_listed(page, b"kept", kept_marks(shares));
    put_word(page, b"\n");
}

// ---- the whole

// The lines before the places, and those behind them.
#[tactic(auto, using(text::specs::Pages::adds_then), unfolding(crate::specs::Show::first_lines))]
fn put_first<const N: usize>(page: &mut ArrayVec<u8, N>, u: SetUp, dealt: bool, heard: [Marks; 4])
    requires { array_vec_len page.old + 395 ≤ N }
    ensures { Adds page.old (first_lines u dealt heard) 395 page.new }
{
    put_set_up(page, u);
    put_dealt(page, u, dealt);
    put_heard(page, heard);
}

#[tactic(auto, using(text::specs::Pages::adds_then), unfolding(crate::specs::Show::last_lines, crate::specs::Show::commanded_line, rules::specs::Text::text))]
fn put_last<const N: usize>(
    page: &mut ArrayVec<u8, N>,
    slots: [Slot; 20],
    progress: Progress,
    shares: [Option<Pair>; 10],
    recovered: Option<Pair>,
)
    requires { array_vec_len page.old + 177 ≤ N }
    ensures { Adds page.old (last_lines slots progress shares recovered) 177 page.new }
{
    put_completion(page, slots, progress.completion);
    put_either(page, progress.commanded, b"commanded\n", b"not commanded\n");
    put_kept_boxes(page, shares);
    put_kept(page, b"recovered ", b"not recovered\n", recovered);
}

// Only the all-zero record has group 0.
#[tactic(auto, using(text::specs::Pages::adds_then, text::specs::Pages::adds_room), unfolding(crate::specs::Show::show_lines, rules::specs::Text::text))]
pub fn put_show<const N: usize>(page: &mut ArrayVec<u8, N>, x: Record)
    requires { array_vec_len page.old + 8952 ≤ N }
    ensures { Adds page.old (show_lines x) 8952 page.new }
{
    if x.setup.group == 0 {
        put_word(page, b"no box\n");
    } else {
        put_first(page, x.setup, x.progress.dealt, x.heard);
        put_places(page, x.setup.k, x.slots);
        put_last(page, x.slots, x.progress, x.shares, x.recovered);
    }
}

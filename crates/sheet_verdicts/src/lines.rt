// The lines that are printed.
ghost use Rattle.std.specs.Prelude.{◌+◌, ◌≤◌, length};
ghost use Rattle.rules.specs.Steps.{share_points};
ghost use Rattle.rules.specs.Sheet.{verdict_text, box_lines, no_secret_line, last_line, sheet_lines};
ghost use Rattle.arrayvec.specs.ArrayVec.{array_vec_len};
ghost use Rattle.text.specs.Pages.{Adds};
ghost use Rattle.sheet_verdicts.specs.Lines.{box_line, secret_text};

use crate::Judged;
use arrayvec::ArrayVec;
use rules::{Pair, Verdict};

// ---- the line of a box

#[tactic(auto, using(text::specs::Pages::adds_then, text::specs::Pages::adds_room), unfolding(rules::specs::Text::text))]
fn put_verdict<const N: usize>(page: &mut ArrayVec<u8, N>, verdict: Verdict)
    requires { array_vec_len page.old + 14 ≤ N }
    ensures { Adds page.old (verdict_text verdict) 14 page.new }
{
    match verdict {
        Verdict::Silent => text::page::put_word(page, b"silent\n"),
        Verdict::Verified => text::page::put_word(page, b"verified\n"),
        Verdict::Refused(refusal) => {
            text::page::put_numbered(page, b"refused ", u16::from(refusal.number()));
            text::page::put_word(page, b"\n");
        }
    }
}

#[tactic(auto, using(text::specs::Pages::adds_then), unfolding(crate::specs::Lines::box_line, rules::specs::Text::text))]
fn put_box_line<const N: usize>(page: &mut ArrayVec<u8, N>, number: u16, verdict: Verdict)
    requires { array_vec_len page.old + 20 ≤ N }
    ensures { Adds page.old (box_line number verdict) 20 page.new }
{
    text::page::put_decimal(page, u32::from(number));
    text::page::put_word(page, b" ");
    put_verdict(page, verdict);
}

#[tactic(auto, using(text::specs::Pages::runs_all), unfolding(rules::specs::Sheet::box_lines, crate::specs::Lines::box_line))]
fn put_box_lines<const N: usize>(page: &mut ArrayVec<u8, N>, sheet: &Judged)
    requires { array_vec_len page.old + 200 ≤ N }
    ensures { Adds page.old (box_lines sheet.now.group sheet.now.k sheet.now.c sheet.now.n sheet.now.shares) 200 page.new }
{
    for m in 0..sheet.n {
        put_box_line(page, m as u16 + 1, sheet.verdict_on(m));
    }
}

// ---- the last line

// The pair, and the boxes that it comes from.
#[tactic(auto, using(text::specs::Pages::adds_then, text::specs::Pages::adds_room), unfolding(crate::specs::Lines::secret_text, rules::specs::Text::text))]
fn put_secret<const N: usize>(page: &mut ArrayVec<u8, N>, pair: Pair, boxes: &[u16])
    requires { (length boxes.now ≤ 8) × (array_vec_len page.old + 72 ≤ N) }
    ensures { Adds page.old (secret_text pair boxes.now) 72 page.new }
{
    text::page::put_numbered(page, b"secret ", pair.first.0);
    text::page::put_numbered(page, b" ", pair.second.0);
    text::page::put_word(page, b" from");
    text::page::put_numbers(page, boxes);
    text::page::put_word(page, b"\n");
}

#[tactic(auto, using(text::specs::Pages::adds_then), unfolding(rules::specs::Sheet::no_secret_line, rules::specs::Text::text))]
fn put_no_secret<const N: usize>(page: &mut ArrayVec<u8, N>, v: u16, k: u32)
    requires { array_vec_len page.old + 26 ≤ N }
    ensures { Adds page.old (no_secret_line v k) 26 page.new }
{
    text::page::put_numbered(page, b"no secret, ", v);
    text::page::put_word(page, b" of ");
    text::page::put_decimal(page, k);
    text::page::put_word(page, b"\n");
}

fn put_last_line<const N: usize>(
    page: &mut ArrayVec<u8, N>,
    q: u16,
    k: usize,
    verified: [Option<Pair>; 10],
)
    requires { (10 ≤ q) × (k ≤ 8) × (array_vec_len page.old + 72 ≤ N) }
    ensures { Adds page.old (last_line q k (share_points verified)) 72 page.new }
{
    let all = record_points::points::points_kept(verified, k);
    if all.count < k {
        put_no_secret(page, all.count as u16, k as u32);
    } else {
        let pair = record_points::recovered_from(q, k, verified);
        put_secret(page, pair, &all.said.map(|s| s.number)[..all.count]);
    }
}

// All the lines of a sheet.
#[tactic(auto, using(text::specs::Pages::adds_then), unfolding(rules::specs::Sheet::sheet_lines))]
pub fn print_lines<const N: usize>(page: &mut ArrayVec<u8, N>, sheet: &Judged)
    requires { array_vec_len page.old + 272 ≤ N }
    ensures { Adds page.old (sheet_lines sheet.now.group sheet.now.k sheet.now.c sheet.now.n sheet.now.shares) 272 page.new }
{
    put_box_lines(page, sheet);
    put_last_line(page, sheet.group.q, sheet.k, sheet.verified_shares());
}

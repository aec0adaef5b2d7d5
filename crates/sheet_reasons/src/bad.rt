// The first bad line of a sheet.
ghost use Rattle.std.specs.Prelude.{◌≡◌, ◌≤◌};
ghost use Rattle.sheet_form.specs.Reading.{FirstLine};
ghost use Rattle.sheet_reasons.specs.Reasons.{Placed, front_keeps, good_lines, own_reason, rest_bad, sheet_bad};

use crate::reasons::Reason;

// Too many bytes; else the first line that is not of its form: how many stand before it, and what is wrong with it.
#[derive(Clone, Copy)]
pub enum Bad {
    TooLong,
    Line { before: u16, reason: Reason },
}

// The first m + 2 lines are a whole sheet of m boxes.
fn front_keeps(b: &[u8], k: usize, m: usize) -> bool
    requires { (k ≤ 8) × (m ≤ 10) }
    ensures { result ≡ front_keeps b.now k m }
{
    let end = crate::lines::line_start(b, m + 2);
    sheet_form::first_line_keeps(&b[..end]) && sheet_form::rest_keeps(&b[..end], m, k)
}

// How many lines behind the first are of their form.
fn good_lines(b: &[u8], n: usize, k: usize) -> usize
    requires { (k ≤ 8) × (n ≤ 10) }
    ensures { result ≡ good_lines b.now n k }
{
    let most = n + 1;
    (0..most).find(|m| !front_keeps(b, k, *m)).unwrap_or(most)
}

// The own reason of the line behind m of them, from i on.
fn own_reason(b: &[u8], n: usize, k: usize, m: usize, i: usize) -> Reason
    requires { Placed b.now i × (k ≤ 8) }
    ensures { result ≡ own_reason b.now n k m i }
{
    if m == 0 {
        let numbers = crate::lines::spaces_in(b, i) + 1;
        crate::reasons::count_reason(k * k, numbers)
    } else if m <= n {
        crate::reasons::box_reason(b, i, m)
    } else {
        Reason::LineTooMany
    }
}

// Behind the first line.
fn rest_bad(b: &[u8], n: usize, k: usize) -> Option<Bad>
    requires { FirstLine b.now n k }
    ensures { result ≡ rest_bad b.now n k }
{
    if sheet_form::rest_keeps(b, n, k) {
        return None;
    }
    let m = good_lines(b, n, k);
    let before = m + 1;
    let i = crate::lines::line_start(b, before);
    let own = own_reason(b, n, k, m, i);
    Some(Bad::Line {
        before: before as u16,
        reason: crate::reasons::line_reason(b, i, own),
    })
}

pub fn sheet_bad(b: &[u8]) -> Option<Bad>
    ensures { result ≡ sheet_bad b.now }
{
    if sheet_form::BYTES < b.len() {
        return Some(Bad::TooLong);
    }
    if !sheet_form::first_line_keeps(b) {
        let own = crate::reasons::first_reason(b);
        let reason = crate::reasons::line_reason(b, 0, own);
        return Some(Bad::Line { before: 0, reason });
    }
    let u = sheet_form::set_up(b);
    if !session_numbers::group_keeps(u) || !session_numbers::sizes_keep(u.n, u.t, u.k) {
        return None;
    }
    rest_bad(b, u.n as usize, u.k as usize)
}

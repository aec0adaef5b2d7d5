// The recovery sheet: what a sheet prints, at the front of a lent page of 512 bytes or more. It asks for nothing: a shorter
// page stays as it is, and the answer is 0, as `Prints` has it.
#![tactic(auto)]

ghost use Rattle.std.specs.Prelude.{◌+◌, ◌≤◌};
ghost use Rattle.rules.specs.Sheet.{body_printed, printed, Prints};
ghost use Rattle.arrayvec.specs.ArrayVec.{array_vec_len};
ghost use Rattle.text.specs.Pages.{Adds};
ghost use Rattle.sheet_page.specs.Asked.{Lawful};

use arrayvec::ArrayVec;
use rules::SetUp;
use sheet_verdicts::Judged;
use text::page::put_word;

// A page has so many bytes at least.
pub const PAGE: usize = 512;

// What stands behind the first line of a sheet whose group and sizes keep their rules.
#[tactic(auto, using(text::specs::Pages::adds_room, rules::proofs::Laws::Numbers::sizes, rules::proofs::Laws::Numbers::group_sizes, sheet_form::specs::Laws::whole_entries), unfolding(rules::specs::Sheet::body_printed, rules::specs::Text::text))]
fn put_body<const N: usize>(page: &mut ArrayVec<u8, N>, b: &[u8], u: SetUp)
    requires { Lawful b.now u × (array_vec_len page.old + 272 ≤ N) }
    ensures { Adds page.old (body_printed b.now u) 272 page.new }
{
    let n = u.n as usize;
    let k = u.k as usize;
    if !sheet_form::rest_keeps(b, n, k) {
        return put_word(page, b"bad sheet\n");
    }
    let group = session_numbers::group_of(u);
    let c = sheet_form::matrix(b, k);
    if !checking::matrix_passes(group, k, c) {
        return put_word(page, b"refused 8\n");
    }
    let shares = sheet_form::shares(b, n, k);
    let sheet = Judged {
        group,
        k,
        c,
        n,
        shares,
    };
    sheet_verdicts::lines::print_lines(page, &sheet);
}

// The tests in order, each printing only its line.
#[tactic(auto, using(text::specs::Pages::adds_room), unfolding(rules::specs::Sheet::printed, rules::specs::Text::text))]
fn put_sheet<const N: usize>(page: &mut ArrayVec<u8, N>, b: &[u8])
    requires { array_vec_len page.old + 272 ≤ N }
    ensures { Adds page.old (printed b.now) 272 page.new }
{
    if !sheet_form::first_line_keeps(b) {
        return put_word(page, b"bad sheet\n");
    }
    let u = sheet_form::set_up(b);
    if !session_numbers::group_keeps(u) {
        return put_word(page, b"refused 11\n");
    }
    if !session_numbers::sizes_keep(u.n, u.t, u.k) {
        return put_word(page, b"refused 12\n");
    }
    put_body(page, b, u);
}

// What the sheet b prints, and how many bytes that is.
#[tactic(auto, unfolding(rules::specs::Sheet::page, rules::specs::Messages::written))]
pub fn print(b: &[u8], page: &mut [u8]) -> usize
    ensures { Prints b.now page.old result page.new }
{
    if page.len() < PAGE {
        return 0;
    }
    let mut lines = ArrayVec::<u8, PAGE>::new();
    put_sheet(&mut lines, b);
    text::page::copy_to(&lines, page)
}

// Rows 8 to 10 of the table, what a message says: the refusal of the first row that holds. No function changes anything.
#![tactic(auto)]

ghost use Rattle.std.specs.Prelude.{◌≡◌, true, ◌≤◌};
ghost use Rattle.rules.specs.Record.{sound};
ghost use Rattle.rules.specs.Refusals.{refusal_of};
ghost use Rattle.rules.specs.Answers.{first_of, exponents_keep, share_checks, checks, hearing_rows};
ghost use Rattle.rules.specs.Laws.Numbers.{Ranges};
ghost use Rattle.rules.specs.Laws.Passed.{Hearing};
ghost use Rattle.box_hearing.specs.Known.{matrix_fails, Checked};

use rules::{Message, Pair, Record, Refusal, SetUp};

// 8: a recovery share has no matrix.
fn matrix_fails(u: SetUp, message: Message) -> bool
    requires { Ranges u }
    ensures { result ≡ matrix_fails u message }
{
    match message {
        Message::Send(c, _) | Message::Echo(c, _) | Message::Ready(c, _) => {
            !checking::matrix_passes(session_numbers::group_of(u), u.k as usize, c)
        }
        Message::Recovery(_) => false,
    }
}

// 9 does not hold.
fn exponents_keep(u: SetUp, message: Message) -> bool
    requires { Ranges u }
    ensures { result ≡ exponents_keep u message }
{
    let q = session_numbers::group_of(u).q;
    match message {
        Message::Send(_, all) => checking::polynomials_below(q, u.k as usize, all),
        Message::Echo(_, four) | Message::Ready(_, four) => checking::four_below(q, four),
        Message::Recovery(pair) => checking::pair_below(q, pair),
    }
}

// The share check against the completed matrix.
#[tactic(auto, unfolding(rules::specs::Record::matrix_of))]
fn share_passes(x: Record, number: u16, pair: Pair) -> bool
    requires { sound x ≡ true }
    ensures { result ≡ share_checks x x.progress.completion number pair }
{
    let u = x.setup;
    match x.progress.completion {
        None => false,
        Some(s) => checking::share_check(
            session_numbers::group_of(u),
            u.k as usize,
            x.slots[s].rows,
            number,
            pair,
        ),
    }
}

// 10 does not hold: the check of its kind.
#[tactic(auto, using(crate::specs::Known::send_checkable, crate::specs::Known::echo_checkable, crate::specs::Known::ready_checkable))]
fn checks_out(x: Record, sender: u16, message: Message) -> bool
    requires { Checked x message }
    ensures { result ≡ checks x sender message }
{
    let u = x.setup;
    let k = u.k as usize;
    let group = session_numbers::group_of(u);
    let own = u.i as u16;
    match message {
        Message::Send(c, all) => checking::polynomial_check(group, k, c, own, all),
        Message::Echo(c, four) | Message::Ready(c, four) => {
            checking::point_check(group, k, c, own, sender, four)
        }
        Message::Recovery(pair) => share_passes(x, sender, pair),
    }
}

// 8 to 10.
#[tactic(auto, using(crate::specs::Known::sender_small))]
pub fn hearing(x: Record, sender: u32, bytes: &[u8]) -> Result<(), Refusal>
    requires { Hearing x sender bytes.now }
    ensures { refusal_of result ≡ first_of (hearing_rows x sender bytes.now) }
{
    let message = message_reading::read(bytes, x.setup);
    if matrix_fails(x.setup, message) {
        return Err(Refusal::MatrixEntry);
    }
    if !exponents_keep(x.setup, message) {
        return Err(Refusal::ExponentHigh);
    }
    if !checks_out(x, sender as u16, message) {
        return Err(Refusal::CheckFails);
    }
    Ok(())
}

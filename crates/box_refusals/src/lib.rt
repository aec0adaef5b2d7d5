// The rows of the table that a call has of its own, up to the hearing: the refusal of the first row that holds. No function
// changes anything.
#![tactic(auto)]

ghost use Rattle.std.specs.Prelude.{◌≡◌};
ghost use Rattle.rules.specs.Refusals.{refusal_of};
ghost use Rattle.rules.specs.Answers.{first_of, set_up_rows, own_deal_rows, own_recover_rows, form_rows, turn_rows};
ghost use Rattle.rules.specs.Laws.Numbers.{Ranges};
ghost use Rattle.box_refusals.specs.Known.{InForm};

use rules::{Record, Refusal, SetUp};

// 11, 12.
#[tactic(auto, unfolding(rules::specs::Answers::first_row, rules::specs::Answers::set_up_rows))]
pub fn set_up(u: SetUp) -> Result<(), Refusal>
    ensures { refusal_of result ≡ first_of (set_up_rows u) }
{
    if !session_numbers::group_keeps(u) {
        return Err(Refusal::NoGroup);
    }
    if !session_numbers::numbers_keep(u) {
        return Err(Refusal::RuleBroken);
    }
    Ok(())
}

// 13, 14.
#[tactic(auto, unfolding(rules::specs::Answers::first_row, rules::specs::Answers::own_deal_rows))]
pub fn deal(x: Record, secret: u32, coins: &[u16]) -> Result<(), Refusal>
    requires { Ranges x.setup }
    ensures { refusal_of result ≡ first_of (own_deal_rows x secret coins.now) }
{
    if x.setup.i != x.setup.d || x.progress.dealt {
        return Err(Refusal::OutOfTurn);
    }
    if !coins::coins_keep(x.setup, secret, coins) {
        return Err(Refusal::SecretOrCoins);
    }
    Ok(())
}

// 13.
#[tactic(auto, unfolding(rules::specs::Answers::first_row, rules::specs::Answers::own_recover_rows))]
pub fn recover(x: Record) -> Result<(), Refusal>
    ensures { refusal_of result ≡ first_of (own_recover_rows x) }
{
    if x.progress.completion.is_none() || x.progress.commanded {
        return Err(Refusal::OutOfTurn);
    }
    Ok(())
}

// 1 to 3: the message is one for this box.
#[tactic(auto, using(rules::proofs::Laws::RoundTrip::header), unfolding(rules::specs::Answers::first_row, rules::specs::Answers::form_rows))]
pub fn form(u: SetUp, sender: u32, bytes: &[u8]) -> Result<(), Refusal>
    requires { Ranges u }
    ensures { refusal_of result ≡ first_of (form_rows u sender bytes.now) }
{
    if !session_numbers::is_box(u, sender) {
        return Err(Refusal::NoBox);
    }
    if message_reading::is_malformed(bytes, u) {
        return Err(Refusal::Malformed);
    }
    if message_reading::is_foreign(bytes, u) {
        return Err(Refusal::Foreign);
    }
    Ok(())
}

// 4 to 7: its sender may say it now. Tags are numbers, since `turn_rows` and the marks (`heard_for`) are over them.
#[tactic(auto, unfolding(rules::specs::Answers::first_row, rules::specs::Answers::turn_rows))]
pub fn turn(x: Record, sender: u32, bytes: &[u8]) -> Result<(), Refusal>
    requires { InForm x.setup sender bytes.now }
    ensures { refusal_of result ≡ first_of (turn_rows x sender bytes.now) }
{
    let tag = bytes[0];
    if tag == 1 && sender != x.setup.d {
        return Err(Refusal::NotTheDealer);
    }
    if tag == 4 && !(x.progress.completion.is_some() && x.progress.commanded) {
        return Err(Refusal::ShareEarly);
    }
    if tag == 4 && x.recovered.is_some() {
        return Err(Refusal::ShareLate);
    }
    let m = sender as usize - 1;
    if record_reading::is_heard(x, tag, m) {
        return Err(Refusal::AlreadyHeard);
    }
    Ok(())
}

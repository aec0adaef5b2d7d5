// The order of each call on a record: 15 and 12, then the rows of its own. The refusal of the first row that holds. No function
// changes anything.
#![tactic(auto)]

ghost use Rattle.std.specs.Prelude.{◌≡◌};
ghost use Rattle.rules.specs.Refusals.{refusal_of};
ghost use Rattle.rules.specs.Answers.{first_of, call_rows, deal_rows, recover_rows, early_rows};

use rules::{Record, Refusal, SetUp};

// 15 and 12, the rows of every call on a record.
#[tactic(auto, unfolding(rules::specs::Answers::first_row, rules::specs::Answers::call_rows))]
fn call(x: Record, lent: usize) -> Result<(), Refusal>
    ensures { refusal_of result ≡ first_of (call_rows x lent) }
{
    if lent < SetUp::LENT {
        return Err(Refusal::BufferShort);
    }
    if !record_soundness::is_sound(x) {
        return Err(Refusal::RuleBroken);
    }
    Ok(())
}

// 15, 12, 13, 14.
pub fn deal(x: Record, secret: u32, coins: &[u16], lent: usize) -> Result<(), Refusal>
    ensures { refusal_of result ≡ first_of (deal_rows x secret coins.now lent) }
{
    call(x, lent)?;
    box_refusals::deal(x, secret, coins)
}

// 15, 12, 13.
pub fn recover(x: Record, lent: usize) -> Result<(), Refusal>
    ensures { refusal_of result ≡ first_of (recover_rows x lent) }
{
    call(x, lent)?;
    box_refusals::recover(x)
}

// 15, 12, then 1 to 7.
pub fn early(x: Record, sender: u32, bytes: &[u8], lent: usize) -> Result<(), Refusal>
    ensures { refusal_of result ≡ first_of (early_rows x sender bytes.now lent) }
{
    call(x, lent)?;
    box_refusals::form(x.setup, sender, bytes)?;
    box_refusals::turn(x, sender, bytes)
}

// The calls of a box: set-up, deal, recovery command, delivery. The host may hand over any numbers, any bytes and any record:
// every call has a numbered answer, and none asks for anything. The record goes in and comes back by value.
#![tactic(auto)]

ghost use Rattle.rules.specs.Answers.{SetsUp, Deals, Recovers, Delivers};

use rules::{Outcome, Record, SetUp};

// Refusals 11, 12. A refused set-up gives the all-zero record.
pub fn set_up(u: SetUp) -> Outcome
    ensures { SetsUp u result }
{
    match box_refusals::set_up(u) {
        Err(refusal) => box_step::refuse(record_writing::new_box::zero_record(), refusal.number()),
        Ok(()) => box_step::accept(box_step::quiet(record_writing::new_box::new_record(u))),
    }
}

// Refusals 15, 12, 13, 14.
pub fn deal(x: Record, secret: u32, coins: &[u16], out: &mut [u8]) -> Outcome
    ensures { Deals x secret coins.now out.old result out.new }
{
    match box_order::deal(x, secret, coins, out.len()) {
        Err(refusal) => box_step::refuse(x, refusal.number()),
        Ok(()) => box_step::accept(box_steps::take_deal(out, x, secret, coins)),
    }
}

// Refusals 15, 12, 13.
pub fn command_recovery(x: Record, out: &mut [u8]) -> Outcome
    ensures { Recovers x out.old result out.new }
{
    match box_order::recover(x, out.len()) {
        Err(refusal) => box_step::refuse(x, refusal.number()),
        Ok(()) => box_step::accept(box_steps::take_command(out, x)),
    }
}

// Refusals 15, 12, then 1 to 10. Those from 8 on mark the sender heard, but for a recovery share.
pub fn deliver(x: Record, sender: u32, bytes: &[u8], out: &mut [u8]) -> Outcome
    ensures { Delivers x sender bytes.now out.old result out.new }
{
    if let Err(refusal) = box_order::early(x, sender, bytes, out.len()) {
        return box_step::refuse(x, refusal.number());
    }
    match box_hearing::hearing(x, sender, bytes) {
        Err(refusal) => {
            box_step::refuse(
                box_steps::refused_at_hearing(x, sender, bytes),
                refusal.number(),
            )
        }
        Ok(()) => box_step::accept(box_steps::take(out, x, sender, bytes)),
    }
}

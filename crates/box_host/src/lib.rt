// A host that holds the record of a box and lends it for a delivery.
#![tactic(auto)]

ghost use Rattle.rules.specs.Answers.{Delivers};

use rules::{Outcome, Record};

// As `box_calls::deliver`, but that the record is changed where it stands.
pub fn deliver(x: Record, sender: u32, bytes: &[u8], out: &mut [u8]) -> Outcome
    ensures { Delivers x sender bytes.now out.old result out.new }
{
    let mut held = x;
    let answer = box_lent::deliver_in(&mut held, sender, bytes, out);
    Outcome { answer, next: held }
}

// A delivery over a lent record, which is changed where it stands. As every call of a box, it asks for nothing.
#![tactic(auto)]

ghost use Rattle.rules.specs.Answers.{DeliversLent};

use rules::{Answer, Record};

// The record at exit is the one that the next call gets; the buffer, as in `box_calls::deliver`.
pub fn deliver_in(x: &mut Record, sender: u32, bytes: &[u8], out: &mut [u8]) -> Answer
    ensures { DeliversLent x.old sender bytes.now out.old result x.new out.new }
{
    let o = box_calls::deliver(*x, sender, bytes, out);
    *x = o.next;
    o.answer
}

// The record of a new box, and the all-zero record of a refused set-up.
ghost use Rattle.std.specs.Prelude.{◌≡◌};
ghost use Rattle.rules.specs.Record.{zero_slot, new_record, zero_record};

use rules::{Marks, Progress, Record, SetUp, Slot};

// A function, and not the constant twenty times over: the compiler lays out a constant piece by piece, which takes half as long again.
#[tactic(auto, unfolding(rules::specs::Record::zero_slot))]
fn zero_slot() -> Slot
    ensures { result ≡ zero_slot }
{
    Slot::EMPTY
}

// With these set-up numbers, whatever they are.
#[tactic(auto, unfolding(rules::specs::Record::new_record))]
pub fn new_record(u: SetUp) -> Record
    ensures { result ≡ new_record u }
{
    let slot = zero_slot();
    let none = Marks::NONE;
    Record {
        setup: u,
        slots: [slot; 20],
        heard: [none; 4],
        progress: Progress {
            dealt: false,
            completion: None,
            commanded: false,
        },
        shares: [None; 10],
        recovered: None,
    }
}

// Every later call refuses it.
#[tactic(auto, unfolding(rules::specs::Record::zero_record))]
pub fn zero_record() -> Record
    ensures { result ≡ zero_record }
{
    new_record(SetUp::ZERO)
}

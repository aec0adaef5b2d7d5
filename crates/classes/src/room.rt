// The boxes of one session in one room, and the post between them.
ghost use Rattle.std.specs.Prelude.{◌≤◌};

use crate::moves;
use crate::moves::{Action, Call, Kind};
use rules::{Outcome, Record, SetUp};

// What is dealt, and by which numbers.
#[derive(Clone, Copy)]
pub struct Class<'a> {
    pub setup: SetUp,
    pub secret: u32,
    pub coins: &'a [u16],
    ghost rules: { (setup.n ≤ 10) × (setup.k ≤ 8) },
}

// What a box sent at once, the message to box 1 first. A struct, as a literal of a struct with an array of arrays is not covered.
#[derive(Clone, Copy)]
struct Mail([u8; 2048]);

// A box, and what it last sent: a send at 0, then an echo, a ready and a recovery share.
#[derive(Clone, Copy)]
struct Seat {
    record: Record,
    sent: [Mail; 4],
}

impl Seat {
    // The message of this kind to box `to`.
    #[tactic(auto, using(rules::proofs::Laws::Lengths::whole_length_least))]
    fn message(&self, kind: Kind, setup: SetUp, to: u32) -> &[u8]
        requires { (setup.k ≤ 8) × (1 ≤ to) }
    {
        let len = message_reading::whole_length(setup, kind as u8);
        self.sent[kind as usize - 1]
            .0
            .chunks_exact(len)
            .nth(to as usize - 1)
            .unwrap_or(b"")
    }
}

// Box 1 stands at 0.
#[derive(Drop)]
struct Room<'a> {
    class: Class<'a>,
    seats: [Seat; 10],
}

impl Room<'_> {
    // What box `to` answers.
    fn answered(&self, call: Call, from: u32, to: u32, out: &mut [u8]) -> Outcome
        requires { (1 ≤ from) × (from ≤ 10) × (1 ≤ to) × (to ≤ 10) }
    {
        let x = self.seats[to as usize - 1].record;
        match call {
            Call::SetUp => box_calls::set_up(SetUp {
                i: to,
                ..self.class.setup
            }),
            Call::Deal { .. } => box_calls::deal(x, self.class.secret, self.class.coins, out),
            Call::Command => box_calls::command_recovery(x, out),
            Call::Deliver { kind, lent } => {
                // A copy: a part of a room, which borrows its coins, is not lent.
                let sender = self.seats[from as usize - 1];
                let bytes = sender.message(kind, self.class.setup, to);
                if lent {
                    box_host::deliver(x, from, bytes, out)
                } else {
                    box_calls::deliver(x, from, bytes, out)
                }
            }
        }
    }

    // Its line, and where they are asked for the messages. The box then holds its new record, and what it sent.
    fn call(&mut self, call: Call, from: u32, to: u32)
        requires { (1 ≤ from) × (from ≤ 10) × (1 ≤ to) × (to ≤ 10) }
    {
        let mut out = [0; 2048];
        let o = self.answered(call, from, to, &mut out);
        moves::told(call, from, to, o.answer);
        if let Call::Deal { printed: true } = call {
            printing::messages(self.class.setup.n as usize, o.answer.bytes, &out);
        }
        let seat = &mut self.seats[to as usize - 1];
        seat.record = o.next;
        if let Some(kind) = Kind::of(o.answer.sent) {
            seat.sent[kind as usize - 1] = Mail(out);
        }
    }
}

// A class from the first move of its script to the last. The set-up numbers are those of box 0, which is refused and leaves the all-zero
// record.
pub fn play(class: Class, script: &str) {
    let n = class.setup.n;
    let seat = Seat {
        record: box_calls::set_up(class.setup).next,
        sent: [Mail([0; 2048]); 4],
    };
    let mut room = Room {
        class,
        seats: [seat; 10],
    };
    for said in script.split(' ') {
        for from in 1..=n {
            for to in 1..=n {
                match moves::read(said, from, to) {
                    None => {}
                    Some(Action::Show) => {
                        printing::showing::show(room.seats[to as usize - 1].record);
                    }
                    Some(Action::Call(call)) => room.call(call, from, to),
                }
            }
        }
    }
}

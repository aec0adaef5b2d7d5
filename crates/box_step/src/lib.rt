// A step of a box as a value: what it leaves, sends and tells. It is accepted, or a call is refused, here and nowhere else.
#![tactic(auto)]

ghost use Rattle.std.specs.Prelude.{◌≡◌};
ghost use Rattle.rules.specs.Answers.{no_pair, refused};
ghost use Rattle.box_step.specs.Told.{quietly, sends, told};

use rules::{Answer, Exponent, Outcome, Pair, Record, Sent};

// What is sent stands at the front of the lent buffer: here is how many bytes it takes.
#[derive(Clone, Copy)]
pub struct Step {
    pub after: Record,
    pub sent: Sent,
    pub bytes: usize,
    pub completed: bool,
    pub recovered: Option<Pair>,
}

// One that changes the record and no more.
pub fn quiet(after: Record) -> Step
    ensures { result ≡ quietly after }
{
    sending(after, Sent::Nothing, 0)
}

// One that changes the record and has written so many bytes.
pub fn sending(after: Record, sent: Sent, bytes: usize) -> Step
    ensures { result ≡ sends after sent bytes }
{
    Step {
        after,
        sent,
        bytes,
        completed: false,
        recovered: None,
    }
}

fn no_pair() -> Pair
    ensures { result ≡ no_pair }
{
    Pair {
        first: Exponent(0),
        second: Exponent(0),
    }
}

// 0, with what the step sent and told.
pub fn accept(step: Step) -> Outcome
    ensures { result ≡ told step }
{
    Outcome {
        answer: Answer {
            no: 0,
            sent: step.sent,
            bytes: step.bytes,
            completed: step.completed,
            recovered: step.recovered.is_some(),
            pair: step.recovered.unwrap_or(no_pair()),
        },
        next: step.after,
    }
}

// A refusal gives its number and otherwise zeros.
#[tactic(auto, unfolding(rules::specs::Answers::refused))]
pub fn refuse(next: Record, no: u8) -> Outcome
    ensures { result ≡ refused no next }
{
    Outcome {
        answer: Answer {
            no,
            sent: Sent::Nothing,
            bytes: 0,
            completed: false,
            recovered: false,
            pair: no_pair(),
        },
        next,
    }
}

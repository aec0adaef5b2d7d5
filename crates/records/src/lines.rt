// A record offered to the three calls, and the line of its three answer numbers.
use crate::{bases, changes};
use rules::{Outcome, Record};

fn number_of(o: Outcome) {
    printing::numbered(b" ", usize::from(o.answer.no));
}

// With this buffer. Sender 0, so that a sound record gets 1; secret 0 with no coins; a command.
pub fn offered(x: Record, out: &mut [u8]) {
    number_of(box_calls::deliver(x, 0, b"", out));
    number_of(box_calls::deal(x, 0, &[], out));
    number_of(box_calls::command_recovery(x, out));
    printing::words(b"\n");
}

// Lines `NAME: BASE, CHANGE, CHANGE ..`.
pub fn lines(text: &[u8]) {
    for line in bases::text(text).lines() {
        if let Some((name, said)) = line.split_once(':') {
            let (base, said) = said.split_once(',').unwrap_or((said, ""));
            // the name with its colon, in one write
            printing::words(&line.as_bytes()[..name.len() + 1]);
            offered(changes::all(bases::base(base.trim()), said), &mut [0; 2048]);
        }
    }
}

// What the test programs print: words and numbers, the line of an answer, and messages in hexadecimal.
// What a box holds is in `showing`.
#![tactic(auto)]

pub mod showing;

ghost use Rattle.std.specs.Iterator.{IsFinite};

use arrayvec::ArrayVec;
use rules::{Answer, Element, Pair, Sent};

// On standard output; a program that cannot write says so, each time that it tries.
pub fn words(text: &[u8]) {
    if !io::write_all(1, text) {
        io::write_all(2, b"standard output cannot be written\n");
    }
}

pub fn number(x: usize) {
    let mut space = [0u8; 20];
    let n = io::decimal(x as u64, &mut space);
    words(&space[..n]);
}

// A word and a number behind it.
pub fn numbered(word: &[u8], x: usize) {
    words(word);
    number(x);
}

// ---- lists: `between` stands before every number but the first

pub fn list<I: Iterator<Item = u16>>(between: &[u8], numbers: I)
    requires can { I.can_next numbers }
    requires ends { IsFinite (I.remaining numbers) }
{
    let mut before: &[u8] = b"";
    for x in numbers {
        numbered(before, usize::from(x));
        before = between;
    }
}

// A list of two.
pub fn pair(between: &[u8], pair: Pair) {
    list(between, [pair.first.0, pair.second.0].into_iter());
}

// The first k rows and columns.
pub fn matrix(between: &[u8], k: usize, c: [[Element; 8]; 8]) {
    list(
        between,
        c.iter()
            .take(k)
            .flat_map(|row| row.iter().take(k))
            .map(|e| e.0),
    );
}

// ---- the line of an answer

// The word of what was sent, with a space before it.
pub fn sent(what: Sent) {
    words(match what {
        Sent::Nothing => b" nothing",
        Sent::Send => b" send",
        Sent::Echo => b" echo",
        Sent::Ready => b" ready",
        Sent::Recovery => b" recovery",
    });
}

fn yes_or_no(answer: bool) {
    words(if answer { b" yes" } else { b" no" });
}

// answer NO SENT BYTES COMPLETED RECOVERED S S'
pub fn answer(a: Answer) {
    numbered(b"answer ", usize::from(a.no));
    sent(a.sent);
    numbered(b" ", a.bytes);
    yes_or_no(a.completed);
    yes_or_no(a.recovered);
    words(b" ");
    pair(b" ", a.pair);
    words(b"\n");
}

// ---- messages

// The message to box j: 199 bytes at most.
fn message(j: usize, bytes: &[u8]) {
    if 256 < bytes.len() {
        return;
    }
    let mut page = ArrayVec::<u8, 512>::new();
    text::page::put_hex(&mut page, bytes);
    numbered(b"to ", j);
    words(b" ");
    words(page.as_slice());
    words(b"\n");
}

// The n messages of a call at the front of the buffer, to box 1 first.
pub fn messages(n: usize, bytes: usize, out: &[u8]) {
    if n == 0 || bytes < n || out.len() < bytes {
        return;
    }
    for (bytes, j) in out[..bytes].chunks_exact(bytes / n).zip(1..) {
        message(j, bytes);
    }
}

// Lines of standard input. It is read as it comes, as much as there is and the buffer has room for; what stands behind a line is
// kept for the next.
ghost use Rattle.std.specs.Prelude.{◌≡◌, ◌+◌, ◌-◌, ◌≤◌, ◌<◌, length};
ghost use Rattle.std.proofs.lemmas.List.Edits.{sets};
ghost use Rattle.console_lines.specs.Lines.{
  line_end,
  held_bytes,
  Within,
  Fills,
  Unended,
  Filled,
  Skipped,
  NextIs,
};

use std::io::{Read, Stdin};

// The bytes that have come and are not taken yet: those of the buffer from one place to another. Places and no slice, since more is
// read into the buffer while they are held.
#[derive(Clone, Copy)]
pub struct Held {
    pub from: usize,
    pub to: usize,
}

const NOTHING: Held = Held { from: 0, to: 0 };

// A line, without its newline, from one place of the buffer to another (as `Held` is); one that is too long, skipped to its end; one that the
// end of the input cut off; or the end of the input.
#[derive(Clone, Copy)]
pub enum Line {
    Whole { from: usize, to: usize },
    TooLong,
    Cut,
    End,
}

// And what is held behind it.
#[derive(Clone, Copy)]
pub struct Next {
    pub line: Line,
    pub held: Held,
}

// Where the line that starts at a place ends: at its newline, or with what has come.
fn line_end(buf: &[u8], from: usize, to: usize) -> usize
    requires { (from ≤ to) × (to ≤ length buf.now) }
    ensures { result ≡ line_end buf.now from to }
{
    text::read::byte_from(&buf[..to], from, b'\n')
}

// What is held goes to the front; how much it is.
fn move_front(buf: &mut [u8], from: usize, to: usize) -> usize
    requires { (from ≤ to) × (to ≤ length buf.old) }
    ensures { (result ≡ to - from) × (buf.new ≡ sets buf.old 0 (held_bytes buf.old from to)) }
{
    buf.copy_within(from..to, 0);
    to - from
}

// As many bytes as there are, behind the first so many; none at the end of the input.
fn read_more(mut input: Stdin, buf: &mut [u8], at: usize) -> usize
    requires { at ≤ length buf.old }
    ensures { Fills buf.old at result buf.new }
{
    input.read(&mut buf[at..]).unwrap_or(0)
}

// To the end of a line of which the first so many bytes of the buffer are a part. The turns are counted, up to a number that no run
// uses up: a proved loop has to end.
fn skip_from(input: Stdin, buf: &mut [u8], part: usize) -> Held
    requires { part ≤ length buf.old }
    ensures { (length buf.new ≡ length buf.old) × Within buf.new result.from result.to }
{
    let mut got = part;
    for _ in 0..u64::MAX {
        let end = line_end(buf, 0, got);
        if end < got {
            return Held {
                from: end + 1,
                to: got,
            };
        }
        got = read_more(input, buf, 0);
        if got == 0 {
            break;
        }
    }
    NOTHING
}

// A line that has filled the buffer is too long, unless the input ends with it.
fn skip_line(input: Stdin, buf: &mut [u8]) -> Next
    ensures { (length buf.new ≡ length buf.old) × Skipped result.line result.held buf.new }
{
    let got = read_more(input, buf, 0);
    if got == 0 {
        return Next {
            line: Line::Cut,
            held: NOTHING,
        };
    }
    Next {
        line: Line::TooLong,
        held: skip_from(input, buf, got),
    }
}

// The line that starts at the front, where the first so many bytes of it have come. A turn goes on by what came, so that none is counted.
fn fill_line(input: Stdin, buf: &mut [u8], kept: usize) -> Next
    requires { Unended buf.old kept }
    ensures { Filled buf.old kept result.line result.held buf.new }
{
    let mut have = kept;
    while have < buf.len() {
        let got = read_more(input, buf, have);
        if got == 0 {
            let line = if have == 0 { Line::End } else { Line::Cut };
            return Next {
                line,
                held: NOTHING,
            };
        }
        let to = have + got;
        let end = line_end(buf, have, to);
        if end < to {
            return Next {
                line: Line::Whole { from: 0, to: end },
                held: Held { from: end + 1, to },
            };
        }
        have = to;
    }
    skip_line(input, buf)
}

// The next line. Where its newline is held nothing is read.
pub fn next_line(input: Stdin, buf: &mut [u8], held: Held) -> Next
    requires { Within buf.old held.from held.to }
    ensures { NextIs buf.old held result.line result.held buf.new }
{
    let Held { from, to } = held;
    let end = line_end(buf, from, to);
    if end < to {
        return Next {
            line: Line::Whole { from, to: end },
            held: Held { from: end + 1, to },
        };
    }
    let kept = move_front(buf, from, to);
    fill_line(input, buf, kept)
}

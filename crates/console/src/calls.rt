// The call that a line makes, and what is written for it on the page.
ghost use Rattle.std.specs.Prelude.{◌≡◌, ◌≤◌, length};
ghost use Rattle.arrayvec.specs.ArrayVec.{array_vec_len};
ghost use Rattle.console.specs.Room.{Ready, Taking};

use arrayvec::ArrayVec;
use console_lines::lines::Line;
use console_lines::reasons::Reason;
use console_lines::said::Said;
use console_lines::{reasons, said};
use rules::{Outcome, Record, SetUp};

// Room for the longest answer.
pub const ROOM: usize = 16_384;

// The box's record, and how many bytes it is lent.
#[derive(Clone, Copy)]
pub struct Bench {
    pub x: Record,
    pub lent: usize,
}

// No box: the all-zero record, as a refused set-up leaves it.
pub fn new_bench() -> Bench {
    Bench {
        x: box_calls::set_up(SetUp::ZERO).next,
        lent: 2048,
    }
}

// The answer and the messages of a call; what it leaves is the bench's from now on. No more than 4,096 bytes are ever lent.
fn told(lent: usize, o: Outcome, out: &[u8], page: &mut ArrayVec<u8, ROOM>) -> Option<Bench>
    requires { array_vec_len page.old ≡ 0 }
{
    let bench = Bench { x: o.next, lent };
    if 4096 < out.len() {
        return None;
    }
    console_page::answers::put_call(page, bench.x.setup.n as usize, o.answer, out);
    Some(bench)
}

fn deal(
    bench: Bench,
    secret: u32,
    coins: &[u16],
    out: &mut [u8],
    page: &mut ArrayVec<u8, ROOM>,
) -> Option<Bench>
    requires { array_vec_len page.old ≡ 0 }
{
    let o = box_calls::deal(bench.x, secret, coins, out);
    told(bench.lent, o, out, page)
}

fn deliver(
    bench: Bench,
    sender: u32,
    bytes: &[u8],
    out: &mut [u8],
    page: &mut ArrayVec<u8, ROOM>,
) -> Option<Bench>
    requires { array_vec_len page.old ≡ 0 }
{
    let o = box_calls::deliver(bench.x, sender, bytes, out);
    told(bench.lent, o, out, page)
}

fn recover(bench: Bench, out: &mut [u8], page: &mut ArrayVec<u8, ROOM>) -> Option<Bench>
    requires { array_vec_len page.old ≡ 0 }
{
    let o = box_calls::command_recovery(bench.x, out);
    told(bench.lent, o, out, page)
}

fn lend(x: Record, lent: usize, page: &mut ArrayVec<u8, ROOM>) -> Option<Bench>
    requires { array_vec_len page.old ≡ 0 }
{
    console_page::answers::put_lent(page, lent);
    Some(Bench { x, lent })
}

// What changes no box: the lines that a word asks for, and none for a comment or an empty line.
fn lines(x: Record, said: Said, bytes: &[u8], page: &mut ArrayVec<u8, ROOM>)
    requires { Ready said bytes.now × (array_vec_len page.old ≡ 0) }
{
    match said {
        Said::Show => console_shows::show::put_show(page, x),
        Said::Points(place) => console_shows::points::put_points(page, x, place),
        Said::Read(n) => console_page::reading::put_read(page, &bytes[..n]),
        Said::Help => console_shows::help::put_help(page),
        Said::HelpOf(n) => console_shows::help::put_answer(page, n as u32),
        Said::Bad(reason) => reasons::put(page, reason),
        _ => {}
    }
}

// With the coins and the bytes that the line says, and the buffer that is lent.
fn call(
    bench: Bench,
    said: Said,
    coins: &[u16],
    bytes: &[u8],
    out: &mut [u8],
    page: &mut ArrayVec<u8, ROOM>,
) -> Option<Bench>
    requires { (length coins.now ≡ 4096) × Ready said bytes.now × (array_vec_len page.old ≡ 0) }
{
    match said {
        Said::SetUp(u) => return told(bench.lent, box_calls::set_up(u), b"", page),
        Said::Deal { secret, coins: n } => return deal(bench, secret, &coins[0..n], out, page),
        Said::Deliver { sender, bytes: n } => return deliver(
            bench,
            sender,
            &bytes[0..n],
            out,
            page,
        ),
        Said::Recover => return recover(bench, out, page),
        Said::Lend(lent) => return lend(bench.x, lent, page),
        Said::Quit => return None,
        _ => lines(bench.x, said, bytes, page),
    }
    Some(bench)
}

// The buffers, lent since memory is fixed, have room for 4,096 coins, 4,096 bytes of a message, and 4,096 bytes that are lent.
fn answer(bench: Bench, line: &[u8], page: &mut ArrayVec<u8, ROOM>) -> Option<Bench>
    requires { (length line.now ≤ 8192) × (array_vec_len page.old ≡ 0) }
{
    let lent = bench.lent;
    if 4096 < lent {
        return None;
    }
    let mut coins = [0u16; 4096];
    let mut bytes = [0u8; 4096];
    let mut space = [0u8; 4096];
    let said = said::read(line, &mut coins, &mut bytes);
    let out: &mut [u8] = &mut space;
    call(bench, said, &coins, &bytes, &mut out[0..lent], page)
}

// What the next line comes to: the bench from now on, and none where the program ends, as it does with its input.
pub fn take(bench: Bench, line: Line, space: &[u8], page: &mut ArrayVec<u8, ROOM>) -> Option<Bench>
    requires { Taking line space.now }
{
    page.clear();
    match line {
        Line::Whole { from, to } => return answer(bench, &space[from..to], page),
        Line::TooLong => reasons::put(page, Reason::TooLong),
        Line::Cut => {
            reasons::put(page, Reason::CutOff);
            return None;
        }
        Line::End => return None,
    }
    Some(bench)
}

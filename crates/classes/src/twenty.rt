// All twenty places of box 1 filled: group 2, n 10, t 1, k 2, dealer 1, session 20. For v = 1 to 20 another class deals secret v, and the
// echo that box m of it sends to box 1 is delivered to the one box 1 that is kept: as an echo from m = v for v ≤ 10, as a ready from
// m = v - 10 above.
ghost use Rattle.std.specs.Prelude.{◌≤◌};

use crate::class_coins::rising;
use crate::moves;
use crate::moves::{Call, Kind};
use rules::{Record, SetUp};

const CLASS: SetUp = SetUp {
    group: 2,
    n: 10,
    t: 1,
    k: 2,
    i: 0,
    d: 1,
    session: 20,
};

fn new_box(i: u32) -> Record {
    box_calls::set_up(SetUp { i, ..CLASS }).next
}

// The kept box gets what box m echoes to it, as this kind: an echo and a ready have the same form but for the tag.
fn given(kept: Record, kind: Kind, m: u32, echo: &mut [u8; 2048]) -> Record {
    echo[0] = kind as u8;
    let o = box_calls::deliver(kept, m, &echo[..23], &mut [0; 2048]);
    moves::told(Call::Deliver { kind, lent: false }, m, 1, o.answer);
    o.next
}

// The class of secret v deals, and its box m echoes.
fn echoed(v: u16, m: u32, echo: &mut [u8; 2048])
    requires { (v ≤ 20) × (1 ≤ m) × (m ≤ 10) }
{
    let coins = rising((41 * v + 13) % 1019, 97);
    let mut sends = [0; 2048];
    let dealt = box_calls::deal(new_box(1), u32::from(v), &coins[..7], &mut sends);
    moves::told(Call::Deal { printed: false }, 1, 1, dealt.answer);
    let at = (m as usize - 1) * 31;
    let o = box_calls::deliver(new_box(m), 1, &sends[at..at + 31], echo);
    moves::told(
        Call::Deliver {
            kind: Kind::Send,
            lent: false,
        },
        1,
        m,
        o.answer,
    );
}

// At the end one more echo, of box 10, gets 7.
pub fn classes() {
    let mut echo = [0; 2048];
    let mut kept = new_box(1);
    printing::words(b"twenty matrices\n");
    for v in 1..=20 {
        let (kind, m) = if v <= 10 {
            (Kind::Echo, v)
        } else {
            (Kind::Ready, v - 10)
        };
        echoed(v, u32::from(m), &mut echo);
        kept = given(kept, kind, u32::from(m), &mut echo);
    }
    printing::showing::show(given(kept, Kind::Echo, 10, &mut echo));
}

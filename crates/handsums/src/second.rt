// Group 2, n 5, t 1, k 3.
ghost use Rattle.std.specs.Prelude.{◌≤◌, ◌<◌};

use crate::dealt::Dealt;
use crate::{boxes, lines};
use printing::words;
use rules::{Exponent, Group, Pair, SetUp};

const CLASS: SetUp = SetUp {
    group: 2,
    n: 5,
    t: 1,
    k: 3,
    i: 1,
    d: 1,
    session: 7,
};

// Box 4's share, and the same but for its first number.
fn shares_checked(dealt: &Dealt) {
    let share = dealt.share_of(4);
    let larger = Pair {
        first: arithmetic::sum(dealt.group.q, share.first, Exponent(1)),
        second: share.second,
    };
    words(b"\ngroup 2 ");
    lines::share_checked(dealt, 4, share);
    words(b"; ");
    lines::share_checked(dealt, 4, larger);
}

fn recovered(dealt: &Dealt) {
    let shares = [2u16, 4, 5].map(|i| (usize::from(i), dealt.share_of(i)));
    words(b"\ngroup 2 2, 4 and 5 recover ");
    lines::pair(boxes::recovered(dealt.group.q, &shares));
}

// Box 3 gets the point of box 5.
fn point_taken(dealt: &Dealt) {
    words(b"\ngroup 2 ");
    lines::point_checked(dealt, 3, 5, dealt.points_from(5)[2]);
    words(b"\n");
}

pub fn sums(group: Group)
    requires { (0 < group.p) × (10 ≤ group.q) }
{
    let coins = [
        311, 42, 1018, 5, 907, 260, 77, 640, 123, 999, 8, 456, 350, 0, 731, 64, 518,
    ];
    if let Some(dealt) = Dealt::by(group, CLASS, 700, &coins) {
        lines::dealt(b"group 2 C = ", b"\ngroup 2 shares ", 5, &dealt);
        shares_checked(&dealt);
        recovered(&dealt);
        point_taken(&dealt);
    }
}

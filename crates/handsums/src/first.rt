// Group 1, n 4, t 1, k 2; f = 5 + 3y + 2x + 4xy, f' = 1 + 6y + 7x + 9xy.
ghost use Rattle.std.specs.Prelude.{◌≤◌, ◌<◌};

use crate::dealt::Dealt;
use crate::{boxes, lines};
use printing::{numbered, words};
use rules::{Exponent, Four, Group, Pair, SetUp};

const CLASS: SetUp = SetUp {
    group: 1,
    n: 4,
    t: 1,
    k: 2,
    i: 1,
    d: 1,
    session: 7,
};

// P3 and P4.
fn zeros_checked(dealt: &Dealt) {
    let zeros = Pair {
        first: Exponent(0),
        second: Exponent(0),
    };
    words(b"\nP3 ");
    lines::share_checked(dealt, 3, zeros);
    words(b"\nP4 ");
    lines::share_checked(dealt, 2, zeros);
}

// The slip of taking a row's points from α.
fn exchanged(four: Four) -> Four {
    Four {
        alpha: four.beta,
        alpha2: four.beta2,
        beta: four.alpha,
        beta2: four.alpha2,
    }
}

// P6: a(0) from the points of boxes 2 and 3, and from the same with α and β exchanged.
fn share_from_points(q: u16, from_2: Four, from_3: Four)
    requires { 10 ≤ q }
{
    let right = boxes::share_from(q, from_2, from_3);
    let slip = boxes::share_from(q, exchanged(from_2), exchanged(from_3));
    numbered(b"\nP6 a(0) = ", usize::from(right.0));
    numbered(b", and ", usize::from(slip.0));
    words(b" from the alphas");
}

// P5 and P6: box 1 gets the points of boxes 2 and 3.
fn points_taken(dealt: &Dealt) {
    let from_2 = dealt.points_from(2)[0];
    let from_3 = dealt.points_from(3)[0];
    words(b"\nP5 ");
    lines::point_checked(dealt, 1, 2, from_2);
    share_from_points(dealt.group.q, from_2, from_3);
}

// P7.
fn recovered(dealt: &Dealt) {
    let q = dealt.group.q;
    let of_1 = dealt.share_of(1);
    words(b"\nP7 1 and 2 recover ");
    lines::pair(boxes::recovered(q, &[(1, of_1), (2, dealt.share_of(2))]));
    words(b"; 1 and 3 recover ");
    lines::pair(boxes::recovered(q, &[(1, of_1), (3, dealt.share_of(3))]));
}

// P8: verified shares need not agree on the secret.
fn another_share(dealt: &Dealt) {
    let share = Pair {
        first: Exponent(0),
        second: Exponent(1),
    };
    words(b"\nP8 ");
    lines::share_checked(dealt, 2, share);
    words(b"; with box 1 it recovers ");
    let pair = boxes::recovered(dealt.group.q, &[(1, dealt.share_of(1)), (2, share)]);
    lines::pair(pair);
    let opened = arithmetic::commit(dealt.group, pair.first, pair.second);
    numbered(b", which opens ", usize::from(opened.0));
}

// Half of P9: C, and what goes to box 1.
fn sent(word: &[u8], group: Group, secret: u16, coins: [u16; 7])
    requires { (0 < group.p) × (10 ≤ group.q) }
{
    if let Some(dealt) = Dealt::by(group, CLASS, secret, &coins) {
        words(word);
        printing::matrix(b", ", 2, dealt.c);
        words(b" and a, a', b, b' of box 1 = ");
        lines::polynomials(2, dealt.polynomials_for(1));
        numbered(b" for ", usize::from(secret));
    }
}

// P9: two secrets, with the coins that match.
fn same_sends(group: Group)
    requires { (0 < group.p) × (10 ≤ group.q) }
{
    sent(b"\nP9 C = ", group, 5, [3, 2, 4, 1, 6, 7, 9]);
    sent(b"; C = ", group, 6, [2, 1, 5, 5, 2, 3, 2]);
}

fn quorum(n: u32, t: u32, k: u32) -> usize
    requires { (n ≤ 10) × (t ≤ 10) }
{
    SetUp { n, t, k, ..CLASS }.echo_quorum() as usize
}

// P10.
fn quorums() {
    numbered(b"\nP10 E = ", quorum(4, 1, 2));
    numbered(b", ", quorum(7, 2, 3));
    numbered(b", ", quorum(10, 1, 8));
    words(b"\n");
}

pub fn sums(group: Group)
    requires { (0 < group.p) × (10 ≤ group.q) }
{
    if let Some(dealt) = Dealt::by(group, CLASS, 5, &[3, 2, 4, 1, 6, 7, 9]) {
        lines::dealt(b"P1 C = ", b"\nP2 shares ", 4, &dealt);
        zeros_checked(&dealt);
        points_taken(&dealt);
        recovered(&dealt);
        another_share(&dealt);
    }
    same_sends(group);
    quorums();
}

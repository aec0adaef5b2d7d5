// Document 01's class: group 1, n 4, t 1, k 2, dealer 1, session 7; secret 5, f and f' of the sums done by hand.
use crate::room;
use crate::room::Class;
use rules::SetUp;

fn play(script: &str) {
    let class = Class {
        setup: SetUp {
            group: 1,
            n: 4,
            t: 1,
            k: 2,
            i: 0,
            d: 1,
            session: 7,
        },
        secret: 5,
        coins: &[3, 2, 4, 1, 6, 7, 9],
    };
    room::play(class, script);
}

// Out of order and with repeats. A second deal gets 13. Box 4 gets no send yet; a send to box 1 a second time gets 7. Box 4 hears echoes
// before its send, and is ready at the third. Box 2 hears each echo once and one twice, which gets 7.
//
// Box 3 hears readies before echoes: it is ready at the second and completes at the third; its echoes then send nothing. A ready a second
// time, to box 1, gets 7; a command before completion, to box 2, 13.
//
// Box 4, completed, gets its send last; then its echoes go round. A share before the command gets 5, a second command 13, a share a second
// time 7, a share after recovery 6.
pub fn class() {
    printing::words(b"a class by hand\n");
    play(
        "\
        n*. d1. d1. s13 s11 s12 s11 e34 e14 e24 e21 e11 e31 e12 e12 e32 e22 \
        r43 r13 r23 r33 e13 e23 e33 r11 r11 r21 r31 r41 c2. r42 r32 r22 r12 r24 r34 r44 r14 \
        s14 e41 e42 e43 e44 c1. h12 c1. h11 h11 c2. h21 h21 h12 h22 h23 c3. h33 h13 h31 c4. h44 h44 h34 h42 \
        w*.",
    );
}

// Each delivery over a lent record. A send a second time gets 7, a share before the command 5, a share a second time 7, one after
// recovery 6.
pub fn lent() {
    printing::words(b"a class over lent records\n");
    play("n*. d1. S1* S11 E** R** c1. H12 c2. H11 H11 H21 H21 w*.");
}

// A class of ten to its end: group 2, n 10, t 1, k 8, dealer 1, session 10; secret 700. The ten sends of the deal in hexadecimal too.
use crate::room::Class;
use crate::{class_coins, room};
use rules::SetUp;

// Box 1 deals, every message reaches every box, and all are commanded.
pub fn class() {
    let class = Class {
        setup: SetUp {
            group: 2,
            n: 10,
            t: 1,
            k: 8,
            i: 0,
            d: 1,
            session: 10,
        },
        secret: 700,
        coins: &class_coins::rising(11, 37),
    };
    printing::words(b"a class of ten\n");
    room::play(class, "n*. D1. s1* e** r** c*. h** w*.");
}

// "its group and set-up numbers keep their rules; stored exponents are below q": each broken alone.
use crate::lines::lines;

// Each gets 12, three times.
pub fn all() {
    // The rules are t ≥ 1, k > t, n - 2t ≥ k, n ≤ 10.
    lines(
        b"\
        group 0: new, numbers 0 4 1 2 1 1 7\n\
        group 3: new, numbers 3 4 1 2 1 1 7\n\
        n 11: new, numbers 1 11 1 2 1 1 7\n\
        t 0: new, numbers 1 4 0 2 1 1 7\n\
        k 1: new, numbers 1 4 1 1 1 1 7\n\
        k 3: new, numbers 1 4 1 3 1 1 7\n\
        i 0: new, numbers 1 4 1 2 0 1 7\n\
        i 5: new, numbers 1 4 1 2 5 1 7\n\
        d 0: new, numbers 1 4 1 2 1 0 7\n\
        d 5: new, numbers 1 4 1 2 1 5 7\n\
        session 65536: new, numbers 1 4 1 2 1 1 65536\n",
    );
    // q is 11. The point of box 1 at box 2 is 10, 5, 9, 6; box 2's share 9, 4; box 1's 7, 8; the recovered pair 5, 1.
    lines(
        b"\
        alpha q in a place: begun, place 0 1 11 5 9 6\n\
        alpha' q in a place: begun, place 0 1 10 11 9 6\n\
        beta q in a place: begun, place 0 1 10 5 11 6\n\
        beta' q in a place: begun, place 0 1 10 5 9 11\n\
        first q in a kept pair: completed, kept 0 11 4\n\
        second q in a kept pair: completed, kept 0 9 11\n\
        first q in a recovery share: recovered, share 1 11 8\n\
        second q in a recovery share: recovered, share 1 7 11\n\
        first q in the recovered pair: recovered, recovered 11 1\n\
        second q in the recovered pair: recovered, recovered 5 11\n",
    );
}

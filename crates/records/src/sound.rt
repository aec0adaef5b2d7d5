// Sound records that a stricter test would refuse.
use crate::lines::lines;

// Each gets 1, then 13 or 14, then 0 or 13.
pub fn all() {
    lines(
        b"\
        new: new\n\
        with one echo: begun\n\
        completed: completed\n\
        recovered: recovered\n\
        box 3 heard for tag 1: new, heard 1 3\n\
        heard for echo with no mark: new, heard 2 1\n\
        gap below a used place: begun, fill 1 0, fill 0 2\n\
        held point that fails its check: begun, place 0 1 0 5 9 6\n\
        r from k + t on and not completed: completed, with\n\
        kept pair not of the points: completed, kept 0 0 0\n",
    );
    // The completed matrix at place 1; at place 0 another, for which box 4 echoed.
    lines(
        b"\
        completed above the lowest place: completed, fill 1 0, mark 1 2 1 2 3, with 1, \
        entry 0 0 0 8, place 0 1, place 0 2, place 0 3, mark 0 2 4, mark 0 3, kept 0\n",
    );
}

// The sound records that are changed: what document 01's class (group 1, n 4, t 1, k 2, dealer 1, session 7; secret 5) leaves.
use crate::changes;
use rules::{Record, SetUp};

// The names are
//
//     new          box 1, the dealer, new
//     begun        box 2 with one echo, of box 1
//     completed    box 2 with all echoes and readies, completed and not commanded
//     recovered    box 1 after recovery, with the shares of boxes 1 and 2
const BASES: &[u8] = b"\
        new: numbers 1 4 1 2 1 1 7\n\
        begun: numbers 1 4 1 2 2 1 7, \
        used 0 1, entry 0 0 0 4, entry 0 0 1 13, entry 0 1 0 8, entry 0 1 1 12, \
        place 0 1 10 5 9 6, mark 0 2 1, heard 2 1\n\
        completed: numbers 1 4 1 2 2 1 7, \
        used 0 1, entry 0 0 0 4, entry 0 0 1 13, entry 0 1 0 8, entry 0 1 1 12, \
        place 0 1 10 5 9 6, place 0 2 9 8 9 8, place 0 3 8 0 9 10, place 0 4 7 3 9 1, \
        mark 0 2 1 2 3 4, mark 0 3 1 2 3 4, kept 0 9 4, \
        heard 1 1, heard 2 1 2 3 4, heard 3 1 2 3 4, with 0\n\
        recovered: numbers 1 4 1 2 1 1 7, \
        used 0 1, entry 0 0 0 4, entry 0 0 1 13, entry 0 1 0 8, entry 0 1 1 12, \
        place 0 1 3 1 3 1, place 0 2 9 6 10 5, place 0 3 4 0 6 9, place 0 4 10 5 2 2, \
        mark 0 2 1 2 3 4, mark 0 3 1 2 3 4, kept 0 7 8, \
        heard 1 1, heard 2 1 2 3 4, heard 3 1 2 3 4, heard 4 1 2, \
        dealt 1, with 0, commanded 1, share 1 7 8, share 2 9 4, recovered 5 1\n";

// A text of the source. There each is bytes, as tests/records reads them.
pub fn text(bytes: &[u8]) -> &str {
    str::from_utf8(bytes).unwrap_or("")
}

// No box: all zero, as a refused set-up leaves it.
pub fn zero() -> Record {
    box_calls::set_up(SetUp::ZERO).next
}

// The base of this name; no box by any other.
pub fn base(name: &str) -> Record {
    for line in text(BASES).lines() {
        if let Some((first, said)) = line.split_once(':')
            && first == name
        {
            return changes::all(zero(), said);
        }
    }
    zero()
}

// The clauses of completion, recovery, dealing and unused places: each broken alone, where that can be.
use crate::lines::lines;

// Each gets 12, three times.
pub fn all() {
    // "a completed box has one completed matrix in use, with r ≥ k + t"
    lines(
        b"\
        completed with a huge place: completed, with 18446744073709551615\n\
        completed with a place not in use: completed, with 1\n\
        completed with r below k + t: completed, mark 0 3 1 2\n",
    );
    // "a command needs completion, kept recovery shares a command, at most k are kept, their senders alone are heard for tag 4, and the
    // recovered pair is there exactly if k are kept"
    lines(
        b"\
        commanded and not completed: completed, with, commanded 1\n\
        share kept and not commanded: completed, share 1 7 8, heard 4 1\n\
        more than k shares kept: recovered, share 3 0 0, heard 4 1 2 3, recovered\n\
        heard for tag 4 with no share: recovered, heard 4 1 2 3\n\
        share and not heard for tag 4: recovered, heard 4 1\n\
        no recovered pair at k shares: recovered, recovered\n\
        recovered pair below k shares: recovered, share 2, heard 4 1\n",
    );
    // "only box d has dealt; unused places are zero"
    lines(
        b"\
        dealt by another box than d: completed, dealt 1\n\
        entry of a matrix not in use: new, entry 19 0 0 1\n\
        entry in row k: begun, entry 0 2 0 1\n\
        entry in column k: begun, entry 0 0 2 1\n",
    );
    // Box 5 of four. A place that is held breaks a clause of places too, unless its sender is marked.
    lines(
        b"\
        sender above n held: begun, place 0 5 0 0 0 0\n\
        sender above n marked for echo: begun, place 0 5 0 0 0 0, mark 0 2 1 5, heard 2 1 5\n\
        sender above n marked for ready: begun, place 0 5 0 0 0 0, mark 0 3 5, heard 3 5\n\
        sender above n with a share: recovered, share 2, share 5 0 0, heard 4 1 5\n\
        sender above n heard for tag 1: new, heard 1 5\n",
    );
}

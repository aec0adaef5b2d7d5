// The clauses of matrices, marks, places, use and kept pairs: each broken alone.
use crate::lines::lines;

// Each gets 12, three times.
pub fn all() {
    // "matrices in use are different and would pass refusal 8": 25 counts as 2 modulo p = 23, and 5 is no power of g.
    lines(
        b"\
        two matrices alike: begun, fill 1 0, mark 1 2, mark 1 3 1, heard 3 1\n\
        entry 0 in use: begun, entry 0 0 0 0\n\
        entry above p: begun, entry 0 0 0 25\n\
        entry of wrong order: begun, entry 0 0 0 5\n",
    );
    // "a sender is marked for echo or ready under at most one matrix each, and then is heard for that tag"
    lines(
        b"\
        echo mark under two matrices: begun, fill 1 0, entry 1 0 0 8\n\
        ready mark under two matrices: begun, fill 1 0, entry 1 0 0 8, mark 1 2, mark 1 3 1, heard 3 1, mark 0 3 1\n\
        echo mark and not heard: begun, heard 2\n\
        ready mark and not heard: completed, heard 3 2 3 4\n",
    );
    // "a place is held exactly if its sender is marked for either"; "a matrix is in use exactly if some place of it is held"
    lines(
        b"\
        place held with no mark: begun, place 0 3 0 0 0 0\n\
        echo mark with a silent place: begun, mark 0 2 1 3, heard 2 1 3\n\
        ready mark with a silent place: begun, mark 0 3 3, heard 3 3\n\
        in use with no place held: begun, place 0 1, mark 0 2\n\
        place held and not in use: begun, used 0 0, entry 0 0 0 0, entry 0 0 1 0, entry 0 1 0 0, entry 0 1 1 0\n",
    );
    // "a kept pair is there exactly if e ≥ E or r ≥ k": here E is 3.
    lines(
        b"\
        pair kept with e below E and r below k: begun, kept 0 0 0\n\
        no pair kept with e from E on: completed, with, mark 0 3, kept 0\n\
        no pair kept with r from k on: completed, mark 0 2, kept 0\n",
    );
}

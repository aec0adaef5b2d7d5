// What a box holds, a line each: its numbers, its places in use, completion, the recovery shares that it keeps, and what it recovered.
use crate::{numbered, words};
use rules::{Pair, Record, SetUp, Slot};

fn set_up(u: SetUp) {
    numbered(b"box ", u.i as usize);
    numbered(b" group ", u.group as usize);
    numbered(b" n ", u.n as usize);
    numbered(b" t ", u.t as usize);
    numbered(b" k ", u.k as usize);
    numbered(b" dealer ", u.d as usize);
    numbered(b" session ", u.session as usize);
    words(b"\n");
}

// ---- places

fn place(k: usize, s: usize, slot: Slot) {
    numbered(b"place ", s);
    numbered(b" e ", record_reading::count_marks(slot.echoed) as usize);
    numbered(b" r ", record_reading::count_marks(slot.readied) as usize);
    words(b" matrix ");
    crate::matrix(b" ", k, slot.rows);
    words(b"\n");
}

fn places(k: usize, all: [Slot; 20]) {
    for (s, slot) in all.iter().enumerate() {
        if slot.used {
            place(k, s, *slot);
        }
    }
}

// ---- completion and recovery

// The pair behind a word, or that there is none.
fn kept_pair(word: &[u8], none: &[u8], keep: Option<Pair>) {
    match keep {
        None => words(none),
        Some(pair) => {
            words(word);
            crate::pair(b" ", pair);
        }
    }
    words(b"\n");
}

// The pair is kept in the place of the completed matrix.
fn completion(done: Option<usize>, all: [Slot; 20]) {
    match done {
        None => words(b"not completed\n"),
        Some(s) => {
            if let Some(slot) = all.get(s) {
                numbered(b"completed place ", s);
                kept_pair(b" share ", b" share none", slot.pair);
            }
        }
    }
}

// The senders of kept recovery shares, rising.
fn shares(all: [Option<Pair>; 10]) {
    words(b"kept");
    if record_reading::count_shares(all) == 0 {
        words(b" none");
    }
    for (m, keep) in all.iter().enumerate() {
        if keep.is_some() {
            numbered(b" ", m + 1);
        }
    }
    words(b"\n");
}

// Only the all-zero record has group 0.
pub fn show(x: Record) {
    if x.setup.group == 0 {
        words(b"no box\n");
        return;
    }
    set_up(x.setup);
    places(x.setup.k as usize, x.slots);
    completion(x.progress.completion, x.slots);
    shares(x.shares);
    kept_pair(b"recovered ", b"not recovered", x.recovered);
}

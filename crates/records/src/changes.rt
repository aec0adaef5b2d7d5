// A record with one part anew, whatever the rules say. Places for matrices have numbers from 0, boxes and tags from 1, entries from 0.
//
//     numbers G N T K I D S     the set-up numbers
//     heard TAG BOX BOX ..      these boxes alone are heard for the tag
//     share BOX [A B]           the box's recovery share; without numbers it is absent
//     recovered [A B]           the recovered pair, likewise
//     dealt 0 or 1              whether the box has dealt
//     with [S]                  completed with the matrix at S; without a number, not yet
//     commanded 0 or 1          whether it is commanded to recover
//     fill S FROM               the place S for a matrix holds all that FROM holds
//     used S 0 or 1             the matrix at S is in use, or not
//     entry S J L E             its entry in row J, column L
//     place S BOX [A A' B B']   the box's place; without numbers it is silent
//     mark S TAG BOX BOX ..     these boxes alone are marked for echo, tag 2, or for ready
//     kept S [A B]              the kept pair; without numbers it is absent
//
// Another number that is not said counts as 0.
ghost use Rattle.std.specs.Prelude.{◌≤◌, ◌<◌};

use rules::{Element, Exponent, Four, Marks, Pair, Point, Record, SetUp, Side};
use std::array;

// Places, tags, boxes, rows and columns as they are said, in range or not.
#[derive(Clone, Copy)]
enum Change {
    Numbers(SetUp),
    Heard(usize, Marks),
    Share(usize, Option<Pair>),
    Recovered(Option<Pair>),
    Dealt(bool),
    With(Option<usize>),
    Commanded(bool),
    Fill(usize, usize),
    Used(usize, bool),
    Entry(usize, usize, usize, Element),
    Place(usize, usize, Point),
    Mark(usize, Side, Marks),
    Kept(usize, Option<Pair>),
}

// ---- what a text says

fn wide(number: Option<usize>) -> u32 {
    u32::try_from(number.unwrap_or(0)).unwrap_or(u32::MAX)
}

fn short(number: Option<usize>) -> u16 {
    u16::try_from(number.unwrap_or(0)).unwrap_or(u16::MAX)
}

fn exponent(number: Option<usize>) -> Exponent {
    Exponent(short(number))
}

fn set_up(numbers: [Option<usize>; 7]) -> SetUp {
    let [group, n, t, k, i, d, session] = numbers.map(wide);
    SetUp {
        group,
        n,
        t,
        k,
        i,
        d,
        session,
    }
}

// By tag 2 for echo, else for ready.
fn side(tag: usize) -> Side {
    if tag == 2 {
        Side::ByEcho
    } else {
        Side::ByReady
    }
}

fn marks(boxes: &[Option<usize>]) -> Marks {
    Marks {
        at: array::from_fn(|m| boxes.contains(&Some(m + 1))),
    }
}

fn pair(numbers: [Option<usize>; 2]) -> Option<Pair> {
    numbers[0]?;
    let [first, second] = numbers.map(exponent);
    Some(Pair { first, second })
}

fn point(numbers: [Option<usize>; 4]) -> Point {
    if numbers[0].is_none() {
        return Point::Silent;
    }
    let [alpha, alpha2, beta, beta2] = numbers.map(exponent);
    Point::Held(Four {
        alpha,
        alpha2,
        beta,
        beta2,
    })
}

// A word, and seven numbers at most.
fn change_in(text: &str) -> Option<Change> {
    let mut words = text.split_whitespace();
    let word = words.next()?;
    let numbers: [Option<usize>; 7] = array::from_fn(|_| words.next()?.parse().ok());
    let [a, b, c, d, e, f, _] = numbers;
    let first = a.unwrap_or(0);
    let second = b.unwrap_or(0);
    Some(match word {
        "numbers" => Change::Numbers(set_up(numbers)),
        "heard" => Change::Heard(first, marks(&numbers[1..])),
        "share" => Change::Share(first, pair([b, c])),
        "recovered" => Change::Recovered(pair([a, b])),
        "dealt" => Change::Dealt(first == 1),
        "with" => Change::With(a),
        "commanded" => Change::Commanded(first == 1),
        "fill" => Change::Fill(first, second),
        "used" => Change::Used(first, second == 1),
        "entry" => Change::Entry(first, second, c.unwrap_or(0), Element(short(d))),
        "place" => Change::Place(first, second, point([c, d, e, f])),
        "mark" => Change::Mark(first, side(second), marks(&numbers[2..])),
        "kept" => Change::Kept(first, pair([b, c])),
        _ => return None,
    })
}

// ---- the record changed

// Where a number stands among `many` from `lowest` on; one out of range, where the lowest does.
fn at(number: usize, lowest: usize, many: usize) -> usize
    requires { 1 ≤ many }
    ensures { result < many }
{
    match number.checked_sub(lowest) {
        Some(at) if at < many => at,
        _ => 0,
    }
}

fn seat(number: usize) -> usize
    ensures { result < 10 }
{
    at(number, 1, SetUp::BOXES)
}

fn slot(number: usize) -> usize
    ensures { result < 20 }
{
    at(number, 0, SetUp::SLOTS)
}

fn changed(mut next: Record, change: Change) -> Record {
    match change {
        Change::Numbers(numbers) => next.setup = numbers,
        Change::Heard(tag, marks) => next.heard[at(tag, 1, 4)] = marks,
        Change::Share(i, share) => next.shares[seat(i)] = share,
        Change::Recovered(pair) => next.recovered = pair,
        Change::Dealt(done) => next.progress.dealt = done,
        Change::With(s) => next.progress.completion = s,
        Change::Commanded(done) => next.progress.commanded = done,
        Change::Fill(s, from) => next.slots[slot(s)] = next.slots[slot(from)],
        Change::Used(s, used) => next.slots[slot(s)].used = used,
        Change::Entry(s, j, l, e) => next.slots[slot(s)].rows[at(j, 0, 8)][at(l, 0, 8)] = e,
        Change::Place(s, i, point) => next.slots[slot(s)].places[seat(i)].point = point,
        Change::Mark(s, Side::ByEcho, marks) => next.slots[slot(s)].echoed = marks,
        Change::Mark(s, Side::ByReady, marks) => next.slots[slot(s)].readied = marks,
        Change::Kept(s, pair) => next.slots[slot(s)].pair = pair,
    }
    next
}

// The changes that a text says, with a comma between two.
pub fn all(x: Record, text: &str) -> Record {
    let mut next = x;
    for said in text.split(',') {
        if let Some(change) = change_in(said) {
            next = changed(next, change);
        }
    }
    next
}

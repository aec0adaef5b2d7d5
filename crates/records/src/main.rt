// Offers records to deliver, deal and command recovery: a line for each, with the three answer numbers. First sound records, then one
// for each clause of soundness that breaks that clause and, where that can be, no other; last the all-zero record.
#![tactic(auto)]

mod bases;
mod changes;
mod lines;
mod sound;
mod unsound_ends;
mod unsound_numbers;
mod unsound_places;

fn main() {
    sound::all();
    unsound_numbers::all();
    unsound_places::all();
    unsound_ends::all();
    let mut short = [0u8; 2047];
    lines::lines(b"all zero: zero\n");
    printing::words(b"all zero, 2047 bytes lent:");
    lines::offered(bases::zero(), &mut short);
}

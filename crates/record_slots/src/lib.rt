// The slot of a matrix: finding it, opening it, one more point and mark in it, and what it is then due.
#![tactic(auto)]

pub mod due;

ghost use Rattle.std.specs.Prelude.{◌≡◌, ◌≤◌, ◌<◌};
ghost use Rattle.folds.specs.Below.{found};
ghost use Rattle.rules.specs.Steps.{opened, keeping, slot_for, taken};
ghost use Rattle.record_slots.specs.Found.{has_own, is_free, held_by};

use rules::{Element, Four, Pair, Place, Point, Record, SetUp, Side, Slot};

// The place of a matrix in use.
fn own_slot(slots: &[Slot; 20], k: usize, c: [[Element; 8]; 8]) -> Option<usize>
    requires { k ≤ 8 }
    ensures { result ≡ found 20 (has_own slots.now k c) }
{
    slots
        .iter()
        .position(|slot| record_reading::has_matrix(k, *slot, c))
}

fn free_slot(slots: &[Slot; 20]) -> Option<usize>
    ensures { result ≡ found 20 (is_free slots.now) }
{
    slots.iter().position(|slot| !slot.used)
}

// The place of the matrix: its own, or the lowest unused; 20 where there is neither, as `Steps.slot_for` has it, whom theorems name.
pub fn slot_for(x: Record, c: [[Element; 8]; 8]) -> usize
    requires { x.setup.k ≤ 8 }
    ensures { result ≡ slot_for x c }
{
    match own_slot(&x.slots, x.setup.k as usize, c) {
        Some(own) => own,
        None => free_slot(&x.slots).unwrap_or(SetUp::SLOTS),
    }
}

// As it stands if it is in use, else a new one for this matrix.
#[tactic(auto, unfolding(rules::specs::Steps::opened, rules::specs::Record::zero_slot))]
pub fn opened_for(c: [[Element; 8]; 8], slot: Slot) -> Slot
    ensures { result ≡ opened c slot }
{
    if slot.used {
        return slot;
    }
    Slot {
        used: true,
        rows: c,
        ..Slot::EMPTY
    }
}

// A place keeps its first point.
fn held(place: Place, four: Four) -> Place
    ensures { result ≡ held_by place four }
{
    match place.point {
        Point::Silent => Place {
            point: Point::Held(four),
        },
        Point::Held(first) => Place {
            point: Point::Held(first),
        },
    }
}

// A checked echo or ready of sender m + 1: its point, and its mark.
pub fn with_point(mut slot: Slot, side: Side, m: usize, four: Four) -> Slot
    requires { m < 10 }
    ensures { result ≡ taken side slot m four }
{
    slot.places[m] = held(slot.places[m], four);
    match side {
        Side::ByEcho => slot.echoed.at[m] = true,
        Side::ByReady => slot.readied.at[m] = true,
    }
    slot
}

// The pair is kept from now on.
#[tactic(auto, unfolding(rules::specs::Steps::keeping))]
pub fn with_pair(mut slot: Slot, pair: Pair) -> Slot
    ensures { result ≡ keeping slot pair }
{
    slot.pair = Some(pair);
    slot
}

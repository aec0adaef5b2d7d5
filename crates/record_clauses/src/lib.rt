// The clauses of a sound record that speak of each slot or of two slots.
#![tactic(auto)]

ghost use Rattle.std.specs.Prelude.{◌≡◌, ◌≤◌, ◌<◌};
ghost use Rattle.rules.specs.Record.{slot_below, point_below, kept_below, places_keep, use_keeps, pair_keeps, entries_zero};
ghost use Rattle.rules.specs.Laws.Numbers.{Sizes};
ghost use Rattle.record_clauses.specs.Clauses.{UsedAt, differ_from, all_differ, passes_in, any_held, row_zero, slot_keeps, every_slot};

use record_reading::{count_marks, is_held};
use rules::{Element, Group, Pair, Place, Point, SetUp, Slot};

// ---- stored exponents are below q

fn point_below(q: u16, place: Place) -> bool
    ensures { result ≡ point_below q place.point }
{
    match place.point {
        Point::Silent => true,
        Point::Held(four) => checking::four_below(q, four),
    }
}

// Of a kept pair; where none is kept there is nothing to break.
pub fn kept_below(q: u16, keep: Option<Pair>) -> bool
    ensures { result ≡ kept_below q keep }
{
    match keep {
        None => true,
        Some(pair) => checking::pair_below(q, pair),
    }
}

#[tactic(auto, unfolding(rules::specs::Record::slot_below))]
fn slot_below(q: u16, slot: Slot) -> bool
    ensures { result ≡ slot_below q slot }
{
    slot.places.iter().all(|place| point_below(q, *place)) && kept_below(q, slot.pair)
}

// ---- matrices in use are different and would pass refusal 8

// The matrix of slot s, in use, is none of those in use below it.
fn differs_below(k: usize, slots: &[Slot; 20], s: usize) -> bool
    requires { UsedAt k slots.now s }
    ensures { result ≡ differ_from k slots.now s }
{
    (0..s).all(|below| !record_reading::has_matrix(k, slots[below], slots[s].rows))
}

pub fn matrices_differ(k: usize, slots: [Slot; 20]) -> bool
    requires { k ≤ 8 }
    ensures { result ≡ all_differ k slots }
{
    (0..SetUp::SLOTS).all(|s| !slots[s].used || differs_below(k, &slots, s))
}

#[tactic(auto, unfolding(crate::specs::Clauses::passes_in, rules::specs::Record::matrix_of))]
fn passes_in(group: Group, k: usize, slot: Slot) -> bool
    requires { (0 < group.p) × (k ≤ 8) }
    ensures { result ≡ passes_in group k slot }
{
    !slot.used || checking::matrix_passes(group, k, slot.rows)
}

// ---- a place is held exactly if its sender is marked for either

fn places_keep(slot: Slot) -> bool
    ensures { result ≡ places_keep slot }
{
    (0..SetUp::BOXES).all(|m| is_held(slot.places[m]) == (slot.echoed.at[m] || slot.readied.at[m]))
}

// ---- a matrix is in use exactly if some place of it is held

fn any_held(slot: Slot) -> bool
    ensures { result ≡ any_held slot }
{
    slot.places.iter().any(|place| is_held(*place))
}

#[tactic(auto, unfolding(rules::specs::Record::use_keeps, crate::specs::Clauses::any_held))]
fn use_keeps(slot: Slot) -> bool
    ensures { result ≡ use_keeps slot }
{
    slot.used == any_held(slot)
}

// ---- a kept pair is there exactly if e ≥ E or r ≥ k

#[tactic(auto, unfolding(rules::specs::Record::pair_keeps, rules::specs::Record::count_e, rules::specs::Record::count_r, record_reading::specs::Slots::count_marks))]
fn pair_keeps(u: SetUp, slot: Slot) -> bool
    requires { Sizes u.n u.t u.k }
    ensures { result ≡ pair_keeps u slot }
{
    let enough = u.echo_quorum() <= count_marks(slot.echoed) || u.k <= count_marks(slot.readied);
    slot.pair.is_some() == enough
}

// ---- entries of matrices not in use, or from k on, are zero

fn entries_zero(k: usize, slot: Slot) -> bool
    ensures { result ≡ entries_zero k slot }
{
    (0..SetUp::WIDTH).all(|j| row_zero(slot.used && j < k, k, slot.rows[j]))
}

// Nothing but zeros from column k on, or in a row that is not in use from the first.
fn row_zero(used: bool, k: usize, row: [Element; 8]) -> bool
    ensures { result ≡ row_zero used k row }
{
    (0..SetUp::WIDTH).all(|l| used && l < k || row[l] == Element(0))
}

// ---- all clauses of one slot, and of every slot

#[tactic(auto, unfolding(crate::specs::Clauses::slot_keeps))]
fn slot_keeps(group: Group, u: SetUp, slot: Slot) -> bool
    requires { (0 < group.p) × Sizes u.n u.t u.k }
    ensures { result ≡ slot_keeps group u slot }
{
    let k = u.k as usize;
    slot_below(group.q, slot)
        && passes_in(group, k, slot)
        && places_keep(slot)
        && use_keeps(slot)
        && pair_keeps(u, slot)
        && entries_zero(k, slot)
}

// Of each of the twenty.
pub fn slots_keep(group: Group, u: SetUp, slots: [Slot; 20]) -> bool
    requires { (0 < group.p) × Sizes u.n u.t u.k }
    ensures { result ≡ every_slot slots (slot_keeps group u) }
{
    slots.iter().all(|slot| slot_keeps(group, u, *slot))
}

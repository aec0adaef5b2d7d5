// The clauses that speak of the whole record.
ghost use Rattle.std.specs.Prelude.{◌≡◌, ◌+◌, ◌≤◌, ◌<◌};
ghost use Rattle.rules.specs.Record.{marks_keep, completion_keeps, dealt_keeps, sender_zero};
ghost use Rattle.record_clauses.specs.Clauses.{every_slot};
ghost use Rattle.record_soundness.specs.Clauses.{mark_of, mark_keeps, kind_keeps, share_keeps, shares_keep, recovery_passes, slot_clear, heard_clear, senders_clear};

use record_reading::{count_marks, count_shares, is_held};
use rules::{Marks, Pair, Record, SetUp, Side, Slot};

// ---- a sender is marked for echo or ready under at most one matrix each, and then is heard for that tag

fn is_marked(slot: Slot, side: Side, m: usize) -> bool
    requires { m < 10 }
    ensures { result ≡ mark_of side slot m }
{
    match side {
        Side::ByEcho => slot.echoed.at[m],
        Side::ByReady => slot.readied.at[m],
    }
}

fn mark_keeps(slots: &[Slot; 20], side: Side, heard: Marks, m: usize) -> bool
    requires { m < 10 }
    ensures { result ≡ mark_keeps slots.now side heard m }
{
    let under = slots
        .iter()
        .filter(|slot| is_marked(**slot, side, m))
        .count();
    under == 0 || under == 1 && heard.at[m]
}

fn kind_keeps(slots: &[Slot; 20], side: Side, heard: Marks) -> bool
    ensures { result ≡ kind_keeps slots.now side heard }
{
    (0..SetUp::BOXES).all(|m| mark_keeps(slots, side, heard, m))
}

// Of echoes, and of readies.
#[tactic(auto, unfolding(rules::specs::Record::marks_keep, crate::specs::Clauses::kind_keeps, crate::specs::Clauses::mark_keeps))]
pub fn marks_keep(x: Record) -> bool
    ensures { result ≡ marks_keep x }
{
    kind_keeps(&x.slots, Side::ByEcho, x.heard[1])
        && kind_keeps(&x.slots, Side::ByReady, x.heard[2])
}

// ---- a completed box has one completed matrix in use, with r ≥ k + t

// A box that has not completed breaks nothing.
#[tactic(auto, unfolding(rules::specs::Record::count_r, record_reading::specs::Slots::count_marks))]
pub fn completion_keeps(x: Record) -> bool
    requires { x.setup.k + x.setup.t ≤ 20 }
    ensures { result ≡ completion_keeps x x.progress.completion }
{
    match x.progress.completion {
        None => true,
        Some(s) => {
            s < SetUp::SLOTS
                && x.slots[s].used
                && x.setup.k + x.setup.t <= count_marks(x.slots[s].readied)
        }
    }
}

// ---- a command needs completion, kept recovery shares a command, at most k are kept, their senders alone are heard for tag 4,
// and the recovered pair is there exactly if k are kept

// A kept share is below q and was commanded, and its sender alone is heard for tag 4.
fn share_keeps(q: u16, commanded: bool, heard: bool, share: Option<Pair>) -> bool
    ensures { result ≡ share_keeps q commanded heard share }
{
    match share {
        None => !heard,
        Some(pair) => heard && commanded && checking::pair_below(q, pair),
    }
}

fn shares_keep(q: u16, commanded: bool, heard: Marks, shares: [Option<Pair>; 10]) -> bool
    ensures { result ≡ shares_keep q commanded heard shares }
{
    (0..SetUp::BOXES).all(|m| share_keeps(q, commanded, heard.at[m], shares[m]))
}

// With the numbers of the shares and of the recovered pair; the slots' are tested with each slot.
#[tactic(auto, unfolding(crate::specs::Clauses::recovery_passes))]
pub fn recovery_keeps(q: u16, x: Record) -> bool
    ensures { result ≡ recovery_passes q x }
{
    let kept = count_shares(x.shares);
    (!x.progress.commanded || x.progress.completion.is_some())
        && shares_keep(q, x.progress.commanded, x.heard[3], x.shares)
        && kept <= x.setup.k
        && x.recovered.is_some() == (kept == x.setup.k)
        && record_clauses::kept_below(q, x.recovered)
}

// ---- only box d has dealt

// A box that has not dealt breaks nothing.
#[tactic(auto, unfolding(rules::specs::Record::dealt_keeps))]
pub fn dealt_keeps(x: Record) -> bool
    ensures { result ≡ dealt_keeps x }
{
    !x.progress.dealt || x.setup.i == x.setup.d
}

// ---- unused places are zero

// Nothing of sender m stands in this slot, and in any.
fn slot_clear(slot: Slot, m: usize) -> bool
    requires { m < 10 }
    ensures { result ≡ slot_clear m slot }
{
    !is_held(slot.places[m]) && !slot.echoed.at[m] && !slot.readied.at[m]
}

fn slots_clear(slots: &[Slot; 20], m: usize) -> bool
    requires { m < 10 }
    ensures { result ≡ every_slot slots.now (slot_clear m) }
{
    slots.iter().all(|slot| slot_clear(*slot, m))
}

fn heard_clear(heard: &[Marks; 4], m: usize) -> bool
    requires { m < 10 }
    ensures { result ≡ heard_clear heard.now m }
{
    heard.iter().all(|marks| !marks.at[m])
}

#[tactic(auto, unfolding(rules::specs::Record::sender_zero, record_clauses::specs::Clauses::every_slot, crate::specs::Clauses::heard_clear))]
fn sender_zero(x: Record, m: usize) -> bool
    requires { m < 10 }
    ensures { result ≡ sender_zero x m }
{
    slots_clear(&x.slots, m) && heard_clear(&x.heard, m) && x.shares[m].is_none()
}

// Of each sender above n.
pub fn senders_zero(x: Record) -> bool
    ensures { result ≡ senders_clear x }
{
    (0..SetUp::BOXES).all(|m| m < x.setup.n as usize || sender_zero(x, m))
}

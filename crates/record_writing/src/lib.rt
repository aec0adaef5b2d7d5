// One part of the record anew, or two at once: each change is made on the copy that was handed over. In `new_box`: the whole of a
// new one.
#![tactic(auto)]

pub mod new_box;

ghost use Rattle.std.specs.Prelude.{◌≡◌, ◌<◌};
ghost use Rattle.rules.specs.Messages.{side_tag};
ghost use Rattle.rules.specs.Steps.{heard, with_slot, with_shares, completing};
ghost use Rattle.rules.specs.Laws.Shape.{HasMark};
ghost use Rattle.record_writing.specs.Anew.{dealt_after, commanded_after};

use rules::{Pair, Record, Side, Slot};

// Sender m + 1 is heard for the tag, a number as in `Steps.heard`.
#[tactic(auto, unfolding(rules::specs::Steps::heard))]
pub fn heard_for(mut x: Record, tag: usize, m: usize) -> Record
    requires { HasMark tag m }
    ensures { result ≡ heard x tag m }
{
    x.heard[tag - 1].at[m] = true;
    x
}

// Sender m + 1 is heard for its echo or ready, and slot s is anew.
#[tactic(auto, using(crate::specs::Anew::side_heard))]
pub fn heard_at_slot(x: Record, side: Side, m: usize, s: usize, slot: Slot) -> Record
    requires { (m < 10) × (s < 20) }
    ensures { result ≡ with_slot (heard x (side_tag side) m) s slot }
{
    let mut next = heard_for(x, usize::from(side.tag()), m);
    next.slots[s] = slot;
    next
}

// The recovery shares and the recovered pair anew.
pub fn with_shares(mut x: Record, shares: [Option<Pair>; 10], recovered: Option<Pair>) -> Record
    ensures { result ≡ with_shares x shares recovered }
{
    x.shares = shares;
    x.recovered = recovered;
    x
}

// Completed with slot s. Only the first completion counts.
#[tactic(auto, unfolding(rules::specs::Steps::completing))]
pub fn completed_with(mut x: Record, s: usize) -> Record
    ensures { result ≡ completing x s }
{
    x.progress.completion = x.progress.completion.or(Some(s));
    x
}

// This box has dealt.
#[tactic(auto, unfolding(crate::specs::Anew::dealt_after))]
pub fn dealt(mut x: Record) -> Record
    ensures { result ≡ dealt_after x }
{
    x.progress.dealt = true;
    x
}

// A recovery was commanded.
#[tactic(auto, unfolding(crate::specs::Anew::commanded_after))]
pub fn commanded(mut x: Record) -> Record
    ensures { result ≡ commanded_after x }
{
    x.progress.commanded = true;
    x
}

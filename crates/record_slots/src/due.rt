// What a slot's counts call for, once a message of this side has been taken into it: a ready, or completion.
ghost use Rattle.std.specs.Prelude.{◌≡◌};
ghost use Rattle.rules.specs.Steps.{ready_due, completion_due};
ghost use Rattle.rules.specs.Laws.Numbers.{Ranges};

use record_reading::count_marks;
use rules::{SetUp, Side, Slot};

// Ready is sent now.
#[tactic(auto, unfolding(rules::specs::Record::count_e, rules::specs::Record::count_r, record_reading::specs::Slots::count_marks))]
pub fn ready_due(u: SetUp, side: Side, slot: Slot) -> bool
    requires { Ranges u }
    ensures { result ≡ ready_due u side slot }
{
    let echoes = count_marks(slot.echoed);
    let readies = count_marks(slot.readied);
    let quorum = u.echo_quorum();
    match side {
        Side::ByEcho => echoes == quorum && readies < u.k,
        Side::ByReady => readies == u.k && echoes < quorum,
    }
}

// Else the box completes now.
#[tactic(auto, unfolding(rules::specs::Record::count_r, record_reading::specs::Slots::count_marks))]
pub fn completion_due(u: SetUp, side: Side, slot: Slot) -> bool
    requires { Ranges u }
    ensures { result ≡ completion_due u side slot }
{
    match side {
        Side::ByEcho => false,
        Side::ByReady => count_marks(slot.readied) == u.k + u.t,
    }
}

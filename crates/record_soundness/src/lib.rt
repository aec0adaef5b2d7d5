// Whether a record is sound: document 01's sentence. Any record may come; nothing is assumed of it.
#![tactic(auto)]

pub mod clauses;

ghost use Rattle.std.specs.Prelude.{◌≡◌, ◌<◌};
ghost use Rattle.rules.specs.Record.{sound};
ghost use Rattle.rules.specs.Laws.Numbers.{Sizes};
ghost use Rattle.record_soundness.specs.Clauses.{tests_pass};

use rules::{Group, Record};

// The one soundness test of a call: the numbers first, then each slot once, then what speaks of several slots or of the rest.
pub fn is_sound(x: Record) -> bool
    ensures { result ≡ sound x }
{
    let u = x.setup;
    if !session_numbers::group_keeps(u) {
        return false;
    }
    session_numbers::numbers_keep(u) && tests_pass(session_numbers::group_of(u), x)
}

// What is tested behind the group and the numbers, under which it needs no test of its own.
#[tactic(auto, unfolding(crate::specs::Clauses::tests_pass))]
fn tests_pass(group: Group, x: Record) -> bool
    requires { (0 < group.p) × Sizes x.setup.n x.setup.t x.setup.k }
    ensures { result ≡ tests_pass group x }
{
    record_clauses::slots_keep(group, x.setup, x.slots)
        && record_clauses::matrices_differ(x.setup.k as usize, x.slots)
        && clauses::marks_keep(x)
        && clauses::completion_keeps(x)
        && clauses::recovery_keeps(group.q, x)
        && clauses::dealt_keeps(x)
        && clauses::senders_zero(x)
}

// The rules of the set-up numbers, as set-up tests them, and as every later call tests them in the record.
#![tactic(auto)]

ghost use Rattle.std.specs.Prelude.{◌≡◌, true};
ghost use Rattle.rules.specs.Numbers.{group_of, group_keeps, sizes_keep, is_box, numbers_keep};

use rules::{Group, SetUp};

// Refusal 11 does not hold.
#[tactic(auto, unfolding(rules::specs::Numbers::group_keeps))]
pub fn group_keeps(u: SetUp) -> bool
    ensures { result ≡ group_keeps u }
{
    u.group == 1 || u.group == 2
}

// The row of a group that keeps its rule.
#[tactic(auto, unfolding(rules::specs::Numbers::group_keeps, rules::specs::Numbers::group_of))]
pub fn group_of(u: SetUp) -> Group
    requires { group_keeps u ≡ true }
    ensures { result ≡ group_of u.group }
{
    Group::at(if u.group == 1 { 0 } else { 1 })
}

// n ≤ 10, t ≥ 1, k > t, n - 2t ≥ k.
#[tactic(auto, unfolding(rules::specs::Numbers::sizes_keep))]
pub fn sizes_keep(n: u32, t: u32, k: u32) -> bool
    ensures { result ≡ sizes_keep n t k }
{
    n as usize <= SetUp::BOXES && 1 <= t && t < k && k <= n.saturating_sub(t).saturating_sub(t)
}

// Refusal 1 does not hold of this number.
#[tactic(auto, unfolding(rules::specs::Numbers::is_box))]
pub fn is_box(u: SetUp, m: u32) -> bool
    ensures { result ≡ is_box u m }
{
    1 <= m && m <= u.n
}

// Refusal 12 of set-up does not hold.
#[tactic(auto, unfolding(rules::specs::Numbers::numbers_keep))]
pub fn numbers_keep(u: SetUp) -> bool
    ensures { result ≡ numbers_keep u }
{
    sizes_keep(u.n, u.t, u.k) && is_box(u, u.i) && is_box(u, u.d) && u.session <= SetUp::SESSIONS
}

// The coins of a deal: whether they keep their rule, and the coefficients of f and f' that the secret and they make.
#![tactic(auto)]

ghost use Rattle.std.specs.Prelude.{◌≡◌, ◌∷◌, ◌+◌, ◌*◌, ◌≤◌, ltb, length, get_or};
ghost use Rattle.folds.specs.Below.{all_below};
ghost use Rattle.rules.specs.Numbers.{exponent};
ghost use Rattle.rules.specs.Matrices.{row};
ghost use Rattle.rules.specs.Dealing.{from_coins, coins_keep};
ghost use Rattle.coins.specs.Asked.{Dealable};

use matrices::filled;
use rules::{Exponent, SetUp};

fn coins_below(q: u16, coins: &[u16]) -> bool
    ensures { result ≡ all_below (length coins.now) (λ c. ltb (get_or coins.now c 0) q) }
{
    coins.iter().all(|c| *c < q)
}

// Refusal 14 does not hold.
#[tactic(auto, using(rules::proofs::Laws::Matrices::square_some, rules::proofs::Laws::Matrices::square_small), unfolding(rules::specs::Dealing::coins_keep))]
pub fn coins_keep(u: SetUp, secret: u32, coins: &[u16]) -> bool
    requires { Dealable u }
    ensures { result ≡ coins_keep u secret coins.now }
{
    let q = session_numbers::group_of(u).q;
    let k = u.k as usize;
    secret < u32::from(q) && coins.len() == 2 * (k * k) - 1 && coins_below(q, coins)
}

// The secret stands before the coins.
fn coin(secret: u16, coins: &[u16], at: usize) -> Exponent
    requires { at ≤ length coins.now }
    ensures { result ≡ exponent (get_or (secret ∷ coins.now) at 0) }
{
    Exponent(if at == 0 { secret } else { coins[at - 1] })
}

fn coin_row(k: usize, secret: u16, coins: &[u16], from: usize) -> [Exponent; 8]
    requires { (k ≤ 8) × (from + k ≤ length coins.now + 1) }
    ensures { result ≡ row k (exponent 0) (λ l. exponent (get_or (secret ∷ coins.now) (from + l) 0)) }
{
    filled(Exponent(0), k, |l| coin(secret, coins, from + l))
}

// f from 0 on, f' from k² on.
pub fn from_coins(u: SetUp, secret: u16, coins: &[u16], from: usize) -> [[Exponent; 8]; 8]
    requires { (u.k ≤ 8) × (from + u.k * u.k ≤ length coins.now + 1) }
    ensures { result ≡ from_coins u secret coins.now from }
{
    // No `filled`: tried, and what a closure that returns an array ensures is not inferred.
    let k = u.k as usize;
    let mut made = [[Exponent(0); 8]; 8];
    for j in 0..k {
        made[j] = coin_row(k, secret, coins, from + j * k);
    }
    made
}

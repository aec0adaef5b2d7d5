// A class dealt: what its boxes get, and send to each other.
ghost use Rattle.std.specs.Prelude.{◌+◌, ◌*◌, ◌≤◌, ◌<◌, length};
ghost use Rattle.checking.specs.Equations.{Checkable};

use rules::{Element, Exponent, Four, Group, Pair, Polynomials, SetUp};

// By f and f' the boxes' polynomials, and C, which passes refusal 8.
#[derive(Drop)]
pub struct Dealt {
    pub group: Group,
    pub k: usize,
    pub f: [[Exponent; 8]; 8],
    pub f2: [[Exponent; 8]; 8],
    pub c: [[Element; 8]; 8],
    ghost passes: { Checkable group k c },
    ghost boxes: { 10 ≤ group.q },
}

impl Dealt {
    // By the secret and the coins. What is dealt passes, so that there is no None.
    pub fn by(group: Group, class: SetUp, secret: u16, coins: &[u16]) -> Option<Dealt>
        requires group { (0 < group.p) × (10 ≤ group.q) }
        requires coins { (class.k ≤ 8) × (2 * (class.k * class.k) ≤ length coins.now + 1) }
    {
        let k = class.k as usize;
        let f = coins::from_coins(class, secret, coins, 0);
        let f2 = coins::from_coins(class, secret, coins, k * k);
        let c = dealing::commit_all(group, k, f, f2);
        if !checking::matrix_passes(group, k, c) {
            return None;
        }
        Some(Dealt { group, k, f, f2, c })
    }

    pub fn polynomials_for(&self, i: u16) -> Polynomials {
        dealing::polynomials_for(self.group.q, self.k, self.f, self.f2, i)
    }

    // (f(i, 0), f'(i, 0)).
    pub fn share_of(&self, i: u16) -> Pair {
        let all = self.polynomials_for(i);
        Pair {
            first: dealing::value_at(self.group.q, self.k, all.a, 0),
            second: dealing::value_at(self.group.q, self.k, all.a2, 0),
        }
    }

    // What box m sends to each box: to box i a(i), a'(i), b(i), b'(i) of box m, at i - 1.
    pub fn points_from(&self, m: u16) -> [Four; 10] {
        dealing::echo_fours(self.group.q, self.k, 10, self.polynomials_for(m))
    }
}

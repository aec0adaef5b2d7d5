// A sheet judged: the verdict on each box, and the lines that are printed.
#![tactic(auto)]

pub mod lines;
mod verdicts;

ghost use Rattle.std.specs.Prelude.{◌≤◌};
ghost use Rattle.checking.specs.Equations.{Checkable};

use rules::{Element, Group, Pair};

// A sheet whose matrix has passed: its group, k and C, and what its n boxes say; box 1's stands at 0.
#[derive(Clone, Copy)]
pub struct Judged {
    pub group: Group,
    pub k: usize,
    pub c: [[Element; 8]; 8],
    pub n: usize,
    pub shares: [Option<Pair>; 10],
    ghost checkable: { Checkable group k c },
    // q is no less than a box's number
    ghost order: { 10 ≤ group.q },
    ghost boxes: { n ≤ 10 },
}

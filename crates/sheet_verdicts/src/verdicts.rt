// The verdict on each box, under a matrix that has passed refusal 8.
ghost use Rattle.std.specs.Prelude.{◌≡◌, Some, ◌<◌};
ghost use Rattle.rules.specs.Sheet.{verdict, verified_shares};
ghost use Rattle.sheet_verdicts.specs.Verdicts.{verdict_on, verified_on};

use crate::Judged;
use rules::{Pair, Refusal, SetUp, Verdict};

impl Judged {
    fn on_pair(&self, m: u16, pair: Pair) -> Verdict
        ensures { result ≡ verdict self.now.group self.now.k self.now.c m (Some pair) }
    {
        if !checking::pair_below(self.group.q, pair) {
            Verdict::Refused(Refusal::ExponentHigh)
        } else if !checking::share_check(self.group, self.k, self.c, m, pair) {
            Verdict::Refused(Refusal::CheckFails)
        } else {
            Verdict::Verified
        }
    }

    // On what box m + 1 says.
    pub(crate) fn verdict_on(&self, m: usize) -> Verdict
        requires { m < self.now.n }
        ensures { result ≡ verdict_on self.now m }
    {
        match self.shares[m] {
            None => Verdict::Silent,
            Some(pair) => self.on_pair(m as u16 + 1, pair),
        }
    }

    // What box m + 1 says, if that is verified.
    #[tactic(auto, unfolding(crate::specs::Verdicts::verified_on))]
    fn verified_on(&self, m: usize) -> Option<Pair>
        requires { m < self.now.n }
        ensures { result ≡ verified_on self.now m }
    {
        match self.verdict_on(m) {
            Verdict::Verified => self.shares[m],
            Verdict::Silent | Verdict::Refused(_) => None,
        }
    }

    // The shares of boxes 1 to n that pass; of the others nothing.
    #[tactic(auto, using(folds::specs::Loops::filling_none, folds::specs::Loops::filling_more, folds::specs::Loops::filling_all), unfolding(rules::specs::Sheet::verified_shares, crate::specs::Verdicts::verified_on))]
    pub(crate) fn verified_shares(&self) -> [Option<Pair>; 10]
        ensures { result ≡ verified_shares self.now.group self.now.k self.now.c self.now.n self.now.shares }
    {
        let mut made = [None; SetUp::BOXES];
        for m in 0..self.n {
            made[m] = self.verified_on(m);
        }
        made
    }
}

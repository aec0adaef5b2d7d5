// The parts of a line that say what a sum gave; a comma and a space stand between two numbers of a list.
use crate::dealt::Dealt;
use printing::{list, numbered, words};
use rules::{Four, Pair, Polynomials};

// In brackets.
pub fn pair(pair: Pair) {
    words(b"(");
    printing::pair(b", ", pair);
    words(b")");
}

// The coefficients of a, a', b, b', one list.
pub fn polynomials(k: usize, all: Polynomials) {
    let Polynomials { a, a2, b, b2 } = all;
    let lines = [a, a2, b, b2];
    list(
        b", ",
        lines
            .iter()
            .flat_map(|line| line.iter().take(k))
            .map(|x| x.0),
    );
}

// C, and the shares of boxes 1 to n, each behind its words.
pub fn dealt(of_c: &[u8], of_shares: &[u8], n: u16, dealt: &Dealt) {
    words(of_c);
    printing::matrix(b", ", dealt.k, dealt.c);
    words(of_shares);
    for i in 1..=n {
        if 1 < i {
            words(b", ");
        }
        pair(dealt.share_of(i));
    }
}

// ---- checks

fn verdict(passes: bool) {
    words(if passes { b": passes" } else { b": fails" });
}

// Of box m.
pub fn share_checked(dealt: &Dealt, m: u16, share: Pair) {
    pair(share);
    numbered(b" for box ", usize::from(m));
    verdict(checking::share_check(dealt.group, dealt.k, dealt.c, m, share));
}

// At box i, from box m.
pub fn point_checked(dealt: &Dealt, i: u16, m: u16, four: Four) {
    let numbers = [four.alpha.0, four.alpha2.0, four.beta.0, four.beta2.0];
    list(b", ", numbers.into_iter());
    numbered(b" at box ", usize::from(i));
    numbered(b" from box ", usize::from(m));
    verdict(checking::point_check(dealt.group, dealt.k, dealt.c, i, m, four));
}

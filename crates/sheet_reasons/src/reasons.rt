// What is wrong with a line that is not of its form: the first reason that holds of it.
ghost use Rattle.std.specs.Prelude.{◌≡◌};
ghost use Rattle.sheet_reasons.specs.Reasons.{
  Placed,
  line_reason,
  count_reason,
  first_reason,
  other_box,
  box_reason,
};

// One that is not of its line's form for any other reason has an item that is no decimal.
#[derive(Clone, Copy)]
pub enum Reason {
    Missing,
    CarriageReturn,
    NoNewline,
    TwoSpaces,
    SpaceAtEdge,
    NotSheet,
    OutOfOrder,
    NotSilent,
    TooFew,
    TooMany,
    NoDecimal,
    LineTooMany,
}

// Of any line; else its own.
#[tactic(auto, unfolding(crate::specs::Reasons::line_reason, rules::specs::Text::text))]
pub fn line_reason(b: &[u8], i: usize, own: Reason) -> Reason
    ensures { result ≡ line_reason b.now i own }
{
    if b.len() <= i {
        return Reason::Missing;
    }
    if crate::lines::in_line(b, i, b"\r") {
        return Reason::CarriageReturn;
    }
    let end = crate::lines::first_word(b, i, b"\n");
    if b.len() <= end {
        return Reason::NoNewline;
    }
    if crate::lines::in_line(b, i, b"  ") {
        return Reason::TwoSpaces;
    }
    if text::read::word_at(b, i, b" ") {
        return Reason::SpaceAtEdge;
    }
    if crate::lines::in_line(b, i, b" \n") {
        return Reason::SpaceAtEdge;
    }
    own
}

// Of a line of so many numbers, of which it has so many.
#[tactic(auto, unfolding(crate::specs::Reasons::count_reason))]
pub fn count_reason(want: usize, have: usize) -> Reason
    ensures { result ≡ count_reason want have }
{
    if have < want {
        Reason::TooFew
    } else if want < have {
        Reason::TooMany
    } else {
        Reason::NoDecimal
    }
}

// Of the first line.
#[tactic(auto, unfolding(crate::specs::Reasons::first_reason, rules::specs::Text::text))]
pub fn first_reason(b: &[u8]) -> Reason
    ensures { result ≡ first_reason b.now }
{
    if text::read::word_at(b, 0, b"sheet\n") {
        return Reason::TooFew;
    }
    if !text::read::word_at(b, 0, b"sheet ") {
        return Reason::NotSheet;
    }
    count_reason(4, crate::lines::spaces_in(b, 0))
}

// The line from i on starts with a number, and not with box m's.
fn other_box(b: &[u8], i: usize, m: usize) -> bool
    ensures { result ≡ other_box b.now i m }
{
    let Ok(x) = text::read::decimal_at(b, i) else {
        return false;
    };
    usize::from(x.number) != m
}

// Of the line of box m.
#[tactic(auto, using(crate::specs::Lines::first_word_le), unfolding(crate::specs::Reasons::box_reason, rules::specs::Text::text))]
pub fn box_reason(b: &[u8], i: usize, m: usize) -> Reason
    requires { Placed b.now i }
    ensures { result ≡ box_reason b.now i m }
{
    if other_box(b, i, m) {
        return Reason::OutOfOrder;
    }
    let numbers = crate::lines::spaces_in(b, i);
    let says = crate::lines::first_word(b, i, b" ") + 1;
    if text::read::word_at(b, says, b"silent\n") {
        return count_reason(1, numbers);
    }
    if numbers != 1 {
        return count_reason(2, numbers);
    }
    if text::read::digits_end(b, says) == says {
        return Reason::NotSilent;
    }
    Reason::TooFew
}

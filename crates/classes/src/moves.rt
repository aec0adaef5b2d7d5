// A script: moves of a letter and two signs, with a space between two moves. A sign names a box by its digit, 0 for box 10, or with `*`
// each box in turn; `.` is the box that the first sign names.
//
//     n*.    each box is set up
//     d1.    box 1 deals; with D its sends are printed too
//     s13    box 3 gets what box 1 sent it as a send; e, r, h: an echo, a ready, a recovery share. With S, E, R, H its record is lent
//     c1.    box 1 is commanded to recover
//     w*.    what each box holds is shown
use printing::{numbered, words};
use rules::{Answer, Sent};

// The kinds of messages, by their tags.
#[derive(Clone, Copy)]
pub enum Kind {
    Send = 1,
    Echo = 2,
    Ready = 3,
    Recovery = 4,
}

impl Kind {
    fn said(letter: u8) -> Option<Kind> {
        match letter {
            b's' | b'S' => Some(Kind::Send),
            b'e' | b'E' => Some(Kind::Echo),
            b'r' | b'R' => Some(Kind::Ready),
            b'h' | b'H' => Some(Kind::Recovery),
            _ => None,
        }
    }

    // Of what was sent, if something was.
    pub fn of(sent: Sent) -> Option<Kind> {
        match sent {
            Sent::Nothing => None,
            Sent::Send => Some(Kind::Send),
            Sent::Echo => Some(Kind::Echo),
            Sent::Ready => Some(Kind::Ready),
            Sent::Recovery => Some(Kind::Recovery),
        }
    }
}

impl From<Kind> for Sent {
    fn from(kind: Kind) -> Sent {
        match kind {
            Kind::Send => Sent::Send,
            Kind::Echo => Sent::Echo,
            Kind::Ready => Sent::Ready,
            Kind::Recovery => Sent::Recovery,
        }
    }
}

// A deal may print its messages too, and a delivery find the record lent.
#[derive(Clone, Copy)]
pub enum Call {
    SetUp,
    Deal { printed: bool },
    Deliver { kind: Kind, lent: bool },
    Command,
}

#[derive(Clone, Copy)]
pub enum Action {
    Call(Call),
    Show,
}

impl Action {
    fn said(letter: u8) -> Option<Action> {
        let call = match letter {
            b'w' => return Some(Action::Show),
            b'n' => Call::SetUp,
            b'd' | b'D' => Call::Deal {
                printed: letter == b'D',
            },
            b'c' => Call::Command,
            _ => Call::Deliver {
                kind: Kind::said(letter)?,
                lent: letter.is_ascii_uppercase(),
            },
        };
        Some(Action::Call(call))
    }
}

fn names(sign: u8, i: u32) -> bool {
    sign == b'*' || sign == b'0' + (i % 10) as u8
}

// What a move does at these two boxes, if anything.
pub fn read(said: &str, from: u32, to: u32) -> Option<Action> {
    let [letter, first, second] = said.as_bytes() else {
        return None;
    };
    let is_second = if *second == b'.' {
        from == to
    } else {
        names(*second, to)
    };
    if names(*first, from) && is_second {
        Action::said(*letter)
    } else {
        None
    }
}

// The line of a call.
pub fn told(call: Call, from: u32, to: u32, answer: Answer) {
    numbered(b"box ", to as usize);
    match call {
        Call::SetUp => words(b" set up"),
        Call::Deal { .. } => words(b" deals"),
        Call::Command => words(b" recovers"),
        Call::Deliver { kind, .. } => {
            numbered(b" from ", from as usize);
            printing::sent(Sent::from(kind));
        }
    }
    words(b": ");
    printing::answer(answer);
}

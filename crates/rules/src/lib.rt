// Document 01's declared types and constants. What every call answers, leaves and writes is defined over them in specs/.
#![tactic(auto)]

ghost use Rattle.std.specs.Prelude.{◌≡◌, ℕ, ◌<◌, ◌≤◌, get_or};
ghost use Rattle.rules.specs.Numbers.{exponent, element, groups, no_group, echo_quorum};
ghost use Rattle.rules.specs.Messages.{side_tag};
ghost use Rattle.rules.specs.Refusals.{refusal_number};

// ---- Numbers

// An exponent counts modulo q.
#[derive(Clone, Copy, PartialEq, Eq)]
pub struct Exponent(pub u16);

// A group element counts modulo p.
#[derive(Clone, Copy, PartialEq, Eq)]
pub struct Element(pub u16);

// A two-byte number of either kind: what reading and writing do alike to an exponent and an element.
pub trait Number: Copy {
    ghost wrap: { ℕ → Self };

    ghost value: { Self → ℕ };

    fn new(x: u16) -> Self
        ensures { result ≡ wrap x };

    fn get(self) -> u16
        ensures { result ≡ value self };
}

impl Number for Exponent {
    ghost wrap = { exponent };

    ghost value = { λ e. e.0 };

    fn new(x: u16) -> Exponent {
        Exponent(x)
    }

    fn get(self) -> u16 {
        self.0
    }
}

impl Number for Element {
    ghost wrap = { element };

    ghost value = { λ e. e.0 };

    fn new(x: u16) -> Element {
        Element(x)
    }

    fn get(self) -> u16 {
        self.0
    }
}

// A row of the table of groups.
#[derive(Clone, Copy)]
pub struct Group {
    pub p: u16,
    pub q: u16,
    pub g: Element,
    pub h: Element,
}

impl Group {
    // Group 1, and group 2.
    pub const TABLE: [Group; 2] = [
        Group {
            p: 23,
            q: 11,
            g: Element(2),
            h: Element(3),
        },
        Group {
            p: 2039,
            q: 1019,
            g: Element(4),
            h: Element(9),
        },
    ];

    // Group 1 stands at 0.
    #[tactic(auto, unfolding(crate::specs::Numbers::groups))]
    pub fn at(place: usize) -> Group
        requires { place < 2 }
        ensures { result ≡ get_or groups place no_group }
    {
        Self::TABLE[place]
    }
}

// The set-up numbers, as a host hands them over: any numbers, until set-up has tested them.
#[derive(Clone, Copy)]
pub struct SetUp {
    pub group: u32,
    pub n: u32,
    pub t: u32,
    pub k: u32,
    // The box's own number.
    pub i: u32,
    // The dealer's.
    pub d: u32,
    pub session: u32,
}

impl SetUp {
    // Boxes are 1..n, n ≤ 10.
    pub const BOXES: usize = 10;
    // k is at most 8.
    pub const WIDTH: usize = 8;

    // Sessions are 0..65,535.
    pub const SESSIONS: u32 = 65_535;
    // "At most 20 such C's can occur and there is room for all".
    pub const SLOTS: usize = 20;
    // What every call that can send wants of the outgoing buffer.
    pub const LENT: usize = 2_048;

    // What the all-zero record has.
    pub const ZERO: SetUp = SetUp {
        group: 0,
        n: 0,
        t: 0,
        k: 0,
        i: 0,
        d: 0,
        session: 0,
    };

    // The echo quorum E.
    #[tactic(auto, unfolding(crate::specs::Numbers::echo_quorum))]
    pub fn echo_quorum(self) -> u32
        requires { (self.n ≤ 10) × (self.t ≤ 10) }
        ensures { result ≡ echo_quorum self }
    {
        self.k.max((self.n + self.t + 2) / 2)
    }
}

// ---- Messages, dealing and checking

// A point from one box to another: α, α', β, β'.
#[derive(Clone, Copy)]
pub struct Four {
    pub alpha: Exponent,
    pub alpha2: Exponent,
    pub beta: Exponent,
    pub beta2: Exponent,
}

impl Four {
    // What stands for no box's.
    pub const ZERO: Four = Four {
        alpha: Exponent(0),
        alpha2: Exponent(0),
        beta: Exponent(0),
        beta2: Exponent(0),
    };
}

// A box's polynomials a, a', b, b': coefficients lowest first, the first k in use.
#[derive(Clone, Copy)]
pub struct Polynomials {
    pub a: [Exponent; 8],
    pub a2: [Exponent; 8],
    pub b: [Exponent; 8],
    pub b2: [Exponent; 8],
}

// A share σ, σ', or what k of them give.
#[derive(Clone, Copy)]
pub struct Pair {
    pub first: Exponent,
    pub second: Exponent,
}

// What a message says behind its dealer and session.
#[derive(Clone, Copy)]
pub enum Message {
    Send([[Element; 8]; 8], Polynomials),
    Echo([[Element; 8]; 8], Four),
    Ready([[Element; 8]; 8], Four),
    Recovery(Pair),
}

// ---- The record

// A place for a sender is silent or holds the four numbers.
#[derive(Clone, Copy)]
pub enum Point {
    Silent,
    Held(Four),
}

// Document 01 names the form: a struct that holds the enum, and an array of those structs.
#[derive(Clone, Copy)]
pub struct Place {
    pub point: Point,
}

// The two messages that carry a point, and count: an echo in e, a ready in r.
#[derive(Clone, Copy)]
pub enum Side {
    ByEcho,
    ByReady,
}

impl Side {
    // The tag of its messages, a number of document 01.
    pub fn tag(self) -> u8
        ensures { result ≡ side_tag self }
    {
        match self {
            Side::ByEcho => 2,
            Side::ByReady => 3,
        }
    }
}

// A mark for each box; box 1 stands at 0.
#[derive(Clone, Copy)]
pub struct Marks {
    pub at: [bool; 10],
}

impl Marks {
    // Nobody's.
    pub const NONE: Marks = Marks { at: [false; 10] };
}

// One of the 20 numbered places for a matrix met in checked echoes or readies: its rows, its senders' places,
// who is marked for echo and for ready, and the pair (a(0), a'(0)) kept when this box sent ready for it. Use is stored and the
// parts stand side by side, since document 01 speaks of matrices not in use and definitions name each part.
#[derive(Clone, Copy)]
pub struct Slot {
    pub used: bool,
    pub rows: [[Element; 8]; 8],
    pub places: [Place; 10],
    pub echoed: Marks,
    pub readied: Marks,
    pub pair: Option<Pair>,
}

impl Slot {
    // One that is not in use.
    pub const EMPTY: Slot = Slot {
        used: false,
        rows: [[Element(0); 8]; 8],
        places: [Place {
            point: Point::Silent,
        }; 10],
        echoed: Marks::NONE,
        readied: Marks::NONE,
        pair: None,
    };
}

// What the box has done: dealt, completed (with the matrix of which slot), been commanded to recover.
#[derive(Clone, Copy)]
pub struct Progress {
    pub dealt: bool,
    pub completion: Option<usize>,
    pub commanded: bool,
}

// All that a box holds between two calls.
#[derive(Clone, Copy)]
pub struct Record {
    pub setup: SetUp,
    pub slots: [Slot; 20],
    // Who is heard, for each tag; tag 1 stands at 0.
    pub heard: [Marks; 4],
    pub progress: Progress,
    // The recovery shares kept, for each box.
    pub shares: [Option<Pair>; 10],
    pub recovered: Option<Pair>,
}

// ---- Answers

// Why a call is refused: a row of document 01's table each, in its order.
#[derive(Clone, Copy, PartialEq, Eq)]
pub enum Refusal {
    // "sender is 0 or above n"
    NoBox,
    // "shorter than 3 bytes, tag not 1..4, size field not the bytes that follow, whole length not that of the tag at
    // this k, or k byte not k"
    Malformed,
    // "dealer or session is another"
    Foreign,
    // "a send from a box other than d"
    NotTheDealer,
    // "recovery share before this box has completed and been commanded"
    ShareEarly,
    // "recovery share after the pair was given"
    ShareLate,
    // "sender already heard for this tag"
    AlreadyHeard,
    // "a matrix entry e is 0, ≥ p, or e^q is not 1"
    MatrixEntry,
    // "an exponent ≥ q"
    ExponentHigh,
    // "the check of its kind fails"
    CheckFails,
    // "set-up: group not 1 or 2"
    NoGroup,
    // "set-up: n, t, k, i, d or the session breaks its rule; any other call: the record is not sound"
    RuleBroken,
    // "deal by another box than d or a second time; recovery command before completion or a second time"
    OutOfTurn,
    // "secret ≥ q, coins not 2k² - 1 in number, or a coin ≥ q"
    SecretOrCoins,
    // "outgoing buffer under 2,048 bytes"
    BufferShort,
}

impl Refusal {
    // Its number in the table, document 01's.
    pub fn number(self) -> u8
        ensures { result ≡ refusal_number self }
    {
        match self {
            Refusal::NoBox => 1,
            Refusal::Malformed => 2,
            Refusal::Foreign => 3,
            Refusal::NotTheDealer => 4,
            Refusal::ShareEarly => 5,
            Refusal::ShareLate => 6,
            Refusal::AlreadyHeard => 7,
            Refusal::MatrixEntry => 8,
            Refusal::ExponentHigh => 9,
            Refusal::CheckFails => 10,
            Refusal::NoGroup => 11,
            Refusal::RuleBroken => 12,
            Refusal::OutOfTurn => 13,
            Refusal::SecretOrCoins => 14,
            Refusal::BufferShort => 15,
        }
    }
}

// What an accepted call has sent. Nothing is one of document 01's words, which theorems name, and so no None.
#[derive(Clone, Copy)]
pub enum Sent {
    Nothing,
    Send,
    Echo,
    Ready,
    Recovery,
}

// The answer number; the rest is zero unless the number is 0. The fields are document 01's own list, which theorems name: so the
// number is a number, and whether a pair was recovered stands beside the pair.
#[derive(Clone, Copy)]
pub struct Answer {
    pub no: u8,
    pub sent: Sent,
    pub bytes: usize,
    pub completed: bool,
    pub recovered: bool,
    pub pair: Pair,
}

// What a call answers, and the record that the next call gets.
#[derive(Clone, Copy)]
pub struct Outcome {
    pub answer: Answer,
    pub next: Record,
}

// ---- The recovery sheet

// What the sheet says of a box: silent, verified, or refused. Three words, of which none is the absence of the others.
#[derive(Clone, Copy)]
pub enum Verdict {
    Silent,
    Verified,
    Refused(Refusal),
}

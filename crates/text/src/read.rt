// Readers. A place may lie behind the end of the text: nothing stands there.
ghost use Rattle.std.specs.Prelude.{◌≡◌, true, ◌+◌, ◌≤◌, ◌<◌, length, drop};
ghost use Rattle.rules.specs.Text.{byte_at, word_at, digits_end, digits_say, number_place, number_at, numbers_at};
ghost use Rattle.text.specs.Decimals.{decimal_in};
ghost use Rattle.text.specs.Finds.{byte_from};

// This byte stands at i.
pub fn byte_at(b: &[u8], i: usize, c: u8) -> bool
    ensures { result ≡ byte_at b.now i c }
{
    i < b.len() && b[i] == c
}

// What stands from i on.
fn rest(b: &[u8], i: usize) -> &[u8]
    ensures { result.now ≡ drop i b.now }
{
    &b[i.min(b.len())..]
}

// This word stands from i on.
pub fn word_at(b: &[u8], i: usize, w: &[u8]) -> bool
    ensures { result ≡ word_at b.now i w.now }
{
    rest(b, i).starts_with(w)
}

// The first place from i on where this byte stands; else where the text ends.
pub fn byte_from(b: &[u8], i: usize, c: u8) -> usize
    ensures { result ≡ byte_from b.now i c }
{
    for j in i..b.len() {
        if b[j] == c {
            return j;
        }
    }
    i.max(b.len())
}

// ---- a decimal

// Where the digits that start at i end.
pub fn digits_end(b: &[u8], i: usize) -> usize
    ensures { result ≡ digits_end b.now i }
{
    for j in i..b.len() {
        if !b[j].is_ascii_digit() {
            return j;
        }
    }
    i.max(b.len())
}

// What the n digits from i on say; a byte below them all says 0.
fn digits_say(b: &[u8], i: usize, n: usize) -> u32
    requires { (n ≤ 5) × (i + n ≤ length b.now) }
    ensures { result ≡ digits_say b.now i n }
{
    let mut said: u32 = 0;
    for x in &b[i..i + n] {
        said = said * 10 + u32::from(x.saturating_sub(b'0'));
    }
    said
}

// A decimal that stands at a place: the number, and where its digits end.
#[derive(Clone, Copy)]
pub struct Decimal {
    pub number: u16,
    pub end: usize,
}

// One that starts at i: at most five digits, no zero before another, a number of two bytes; else where the digits end that stand there.
pub fn decimal_at(b: &[u8], i: usize) -> Result<Decimal, usize>
    ensures { result ≡ decimal_in b.now i }
{
    let end = digits_end(b, i);
    if end <= i || 5 < end - i || 1 < end - i && byte_at(b, i, b'0') {
        return Err(end);
    }
    match u16::try_from(digits_say(b, i, end - i)) {
        Ok(number) => Ok(Decimal { number, end }),
        Err(_) => Err(end),
    }
}

// ---- the numbers of a line

// m numbers from i on end their line.
pub fn numbers_at(b: &[u8], i: usize, m: usize) -> bool
    ensures { result ≡ numbers_at b.now i m }
{
    let mut place = i;
    for j in 0..m {
        let Ok(x) = decimal_at(b, place) else {
            return false;
        };
        let behind = if j + 1 == m { b'\n' } else { b' ' };
        if !byte_at(b, x.end, behind) {
            return false;
        }
        place = x.end + 1;
    }
    true
}

// Where number j of the m from i on stands; behind the line for j = m.
pub fn number_place(b: &[u8], i: usize, m: usize, j: usize) -> usize
    requires { (numbers_at b.now i m ≡ true) × (j ≤ m) }
    ensures { result ≡ number_place b.now i j }
{
    let mut place = i;
    for _l in 0..j {
        place = digits_end(b, place) + 1;
    }
    place
}

// Number j of the m from i on.
pub fn number_at(b: &[u8], i: usize, m: usize, j: usize) -> u16
    requires { (numbers_at b.now i m ≡ true) × (j < m) }
    ensures { result ≡ number_at b.now i j }
{
    decimal_at(b, number_place(b, i, m, j)).unwrap().number
}

// The words that a line may begin with, and the form of the items behind each.
ghost use Rattle.std.specs.Prelude.{◌≡◌, ◌≤◌, length};
ghost use Rattle.console_lines.specs.Items.{item_end, place_in};
ghost use Rattle.console_lines.specs.Words.{
  word_is,
  word_of,
  form,
  form_of,
  number_keeps,
  bytes_keep,
  item_keeps,
  bad_item,
};

#[derive(Clone, Copy)]
pub enum Word {
    SetUp,
    Lend,
    Deal,
    Deliver,
    Recover,
    Show,
    Help,
    Read,
    Points,
    Quit,
}

const NAMES: [(&[u8], Word); 10] = [
    (b"setup", Word::SetUp),
    (b"lend", Word::Lend),
    (b"deal", Word::Deal),
    (b"deliver", Word::Deliver),
    (b"recover", Word::Recover),
    (b"show", Word::Show),
    (b"help", Word::Help),
    (b"read", Word::Read),
    (b"points", Word::Points),
    (b"quit", Word::Quit),
];

// At least and at most so many items; the first so many of them are decimals up to the limit, the others hexadecimal.
#[derive(Clone, Copy)]
pub struct Form {
    pub least: usize,
    pub most: usize,
    pub numbers: usize,
    pub limit: u16,
}

// ---- the word

#[tactic(auto, unfolding(crate::specs::Words::word_is))]
fn word_is(line: &[u8], word: &[u8]) -> bool
    ensures { result ≡ word_is line.now word.now }
{
    text::read::word_at(line, 0, word) && crate::items::item_end(line, 0) == word.len()
}

// The first of the names that the line begins with tells the word.
pub fn word_of(line: &[u8]) -> Option<Word>
    ensures { result ≡ word_of line.now }
{
    let x = NAMES.iter().find(|x| word_is(line, x.0))?;
    Some(x.1)
}

fn new_form(least: usize, most: usize, numbers: usize, limit: u16) -> Form
    ensures { result ≡ form least most numbers limit }
{
    Form {
        least,
        most,
        numbers,
        limit,
    }
}

// A line has no room for 8,192 items.
pub fn form_of(word: Word) -> Form
    ensures { result ≡ form_of word }
{
    match word {
        Word::SetUp => new_form(7, 7, 7, 65_535),
        Word::Lend => new_form(1, 1, 1, 4_096),
        Word::Deal => new_form(1, 8_192, 8_192, 65_535),
        Word::Deliver => new_form(2, 2, 1, 65_535),
        Word::Recover => new_form(0, 0, 0, 0),
        Word::Show => new_form(0, 0, 0, 0),
        Word::Help => new_form(0, 1, 1, 20),
        Word::Read => new_form(1, 1, 0, 0),
        Word::Points => new_form(1, 1, 1, 19),
        Word::Quit => new_form(0, 0, 0, 0),
    }
}

// ---- the items

// The item from one place to another is a decimal up to the limit.
#[tactic(auto, unfolding(crate::specs::Words::number_keeps))]
fn number_keeps(line: &[u8], from: usize, end: usize, limit: u16) -> bool
    requires { end ≡ item_end line.now from }
    ensures { result ≡ number_keeps line.now from limit }
{
    let Ok(x) = text::read::decimal_at(line, from) else {
        return false;
    };
    x.end == end && x.number <= limit
}

// It is `-`, or an even number of digits.
#[tactic(auto, using(crate::specs::Items::item_end_least), unfolding(crate::specs::Words::bytes_keep))]
fn bytes_keep(line: &[u8], from: usize, end: usize) -> bool
    requires { end ≡ item_end line.now from }
    ensures { result ≡ bytes_keep line.now from }
{
    let width = end - from;
    if width == 1 {
        return text::read::byte_at(line, from, b'-');
    }
    width % 2 == 0 && text::hexadecimal::hex_at(line, from, width / 2)
}

// It is of the form of item j, counted from 0 behind the word.
#[tactic(auto, unfolding(crate::specs::Words::item_keeps))]
fn item_keeps(line: &[u8], form: Form, j: usize, from: usize, end: usize) -> bool
    requires { end ≡ item_end line.now from }
    ensures { result ≡ item_keeps line.now form j from }
{
    if j < form.numbers {
        number_keeps(line, from, end, form.limit)
    } else {
        bytes_keep(line, from, end)
    }
}

// The first of m items that is not of its form.
pub fn bad_item(line: &[u8], form: Form, m: usize) -> Option<usize>
    requires { (length line.now ≤ 8192) × (m ≤ 8192) }
    ensures { result ≡ place_in m (bad_item line.now form m) }
{
    let mut place = crate::items::item_place(line, 1);
    for j in 0..m {
        let end = crate::items::item_end(line, place);
        if !item_keeps(line, form, j, place, end) {
            return Some(j);
        }
        place = end + 1;
    }
    None
}

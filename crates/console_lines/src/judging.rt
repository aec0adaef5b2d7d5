// Whether a line is taken: the reasons of a bad line, in their order.
ghost use Rattle.std.specs.Prelude.{◌≡◌, ◌≤◌, ◌<◌, length};
ghost use Rattle.console_lines.specs.Items.{place_in};
ghost use Rattle.console_lines.specs.Judging.{
  is_outside,
  bad_byte,
  is_stray,
  bad_space,
  is_quiet,
  judged_word,
  judged,
};

use crate::reasons::Reason;
use crate::words::Word;

// ---- bytes and spaces

fn is_outside(x: u8) -> bool
    ensures { result ≡ is_outside x }
{
    x < 32 || 126 < x
}

// The first byte outside 32..126.
fn bad_byte(line: &[u8]) -> Option<usize>
    ensures { result ≡ place_in (length line.now) (bad_byte line.now) }
{
    line.iter().position(|x| is_outside(*x))
}

// A space at the start or the end, or behind another one.
#[tactic(auto, unfolding(crate::specs::Judging::is_stray))]
fn is_stray(line: &[u8], i: usize) -> bool
    requires { i < length line.now }
    ensures { result ≡ is_stray line.now i }
{
    line[i] == b' ' && (i == 0 || i + 1 == line.len() || line[i - 1] == b' ')
}

// The first such space.
fn bad_space(line: &[u8]) -> Option<usize>
    ensures { result ≡ place_in (length line.now) (bad_space line.now) }
{
    (0..line.len()).find(|i| is_stray(line, *i))
}

// ---- the word and its items

#[tactic(auto, unfolding(crate::specs::Judging::judged_word))]
fn judge_word(line: &[u8], word: Word) -> Result<Option<Word>, Reason>
    requires { length line.now ≤ 8192 }
    ensures { result ≡ judged_word line.now word }
{
    let form = crate::words::form_of(word);
    let m = crate::items::count_items(line);
    if m < form.least || form.most < m {
        return Err(Reason::Items);
    }
    match crate::words::bad_item(line, form, m) {
        Some(j) => Err(Reason::Item((j + 1) as u16)),
        None => Ok(Some(word)),
    }
}

// ---- a line

fn is_quiet(line: &[u8]) -> bool
    ensures { result ≡ is_quiet line.now }
{
    line.len() == 0 || line[0] == b'#'
}

// No word for a line that says nothing; else the word that it begins with, all its items of their forms; or why it is bad.
pub fn judge(line: &[u8]) -> Result<Option<Word>, Reason>
    requires { length line.now ≤ 8192 }
    ensures { result ≡ judged line.now }
{
    if is_quiet(line) {
        return Ok(None);
    }
    if let Some(i) = bad_byte(line) {
        let at = (i + 1) as u16;
        return Err(Reason::Byte { value: line[i], at });
    }
    if let Some(i) = bad_space(line) {
        return Err(Reason::Space((i + 1) as u16));
    }
    // No `?`: tried, and a goal on the error's `From` stayed open.
    match crate::words::word_of(line) {
        Some(word) => judge_word(line, word),
        None => Err(Reason::NoSuchWord),
    }
}

// Where the lines of a text stand, and what stands in one. A place may be the end of the text: an empty line without a newline.
ghost use Rattle.std.specs.Prelude.{◌≡◌};
ghost use Rattle.sheet_reasons.specs.Lines.{first_word, behind_line, line_start, in_line, spaces_in};

// The first place from i on where this word stands; the end where it stands nowhere, as `Lines.first_word` has it.
pub fn first_word(b: &[u8], i: usize, w: &[u8]) -> usize
    ensures { result ≡ first_word b.now i w.now }
{
    (i..b.len())
        .find(|j| text::read::word_at(b, *j, w))
        .unwrap_or(i.max(b.len()))
}

// Where the line behind the one from i on starts.
fn behind_line(b: &[u8], i: usize) -> usize
    ensures { result ≡ behind_line b.now i }
{
    let end = first_word(b, i, b"\n");
    if b.len() <= end { end } else { end + 1 }
}

// Where the line behind l lines starts.
pub fn line_start(b: &[u8], l: usize) -> usize
    ensures { result ≡ line_start b.now l }
{
    let mut place: usize = 0;
    for _j in 0..l {
        place = behind_line(b, place);
    }
    place
}

// This word starts in the line from i on.
pub fn in_line(b: &[u8], i: usize, w: &[u8]) -> bool
    ensures { result ≡ in_line b.now i w.now }
{
    first_word(b, i, w) < first_word(b, i, b"\n")
}

// How many spaces stand in it.
pub fn spaces_in(b: &[u8], i: usize) -> usize
    ensures { result ≡ spaces_in b.now i }
{
    let end = first_word(b, i, b"\n");
    if end <= i {
        return 0;
    }
    b[i..end].iter().filter(|x| **x == b' ').count()
}

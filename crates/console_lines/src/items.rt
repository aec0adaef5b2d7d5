// The items of a line: what stands between two spaces, the word among them as item 0.
ghost use Rattle.std.specs.Prelude.{◌≡◌, ◌≤◌, length};
ghost use Rattle.console_lines.specs.Items.{item_end, item_place, items};

// Where the item that starts at a place ends.
#[tactic(auto, unfolding(crate::specs::Items::item_end, text::specs::Finds::byte_from))]
pub fn item_end(line: &[u8], from: usize) -> usize
    ensures { result ≡ item_end line.now from }
{
    text::read::byte_from(line, from, b' ')
}

// Where item j starts.
pub fn item_place(line: &[u8], j: usize) -> usize
    requires { (length line.now ≤ 8192) × (j ≤ 8192) }
    ensures { result ≡ item_place line.now j }
{
    let mut place: usize = 0;
    for _l in 0..j {
        place = item_end(line, place) + 1;
    }
    place
}

// How many stand behind the word: as many as there are spaces.
pub fn count_items(line: &[u8]) -> usize
    ensures { result ≡ items line.now }
{
    line.iter().filter(|x| **x == b' ').count()
}

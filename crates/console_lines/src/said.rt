// What a line says. A line is handed over without its newline; it has room for 4,096 coins and bytes at most.
ghost use Rattle.std.specs.Prelude.{◌≡◌, ◌≤◌, length};
ghost use Rattle.std.proofs.lemmas.List.Edits.{sets};
ghost use Rattle.console_lines.specs.declared.words.Word.TheVariants as word;
ghost use Rattle.console_lines.specs.Says.{
  number_at,
  number_of,
  set_up_of,
  coins_in,
  byte_count,
  bytes_in,
  command_of,
  coins_of,
  bytes_of,
};
ghost use Rattle.console_lines.specs.Reading.{Short, HexItem, Dealt, Taken, Lent, Answers, Speaks};

use crate::reasons::Reason;
use crate::words::Word;
use rules::SetUp;

// A deal has a secret and so many coins, a delivery a sender and so many bytes, and so has `read`; they stand in the space that
// was lent. Nothing is what a comment and an empty line say, a case like the others.
#[derive(Clone, Copy)]
pub enum Said {
    Nothing,
    Quit,
    Help,
    HelpOf(usize),
    SetUp(SetUp),
    Lend(usize),
    Deal { secret: u32, coins: usize },
    Deliver { sender: u32, bytes: usize },
    Recover,
    Show,
    Read(usize),
    Points(usize),
    Bad(Reason),
}

// The number that stands at a place, and 0 where none does, as `Says.number_at` has it.
#[tactic(auto, unfolding(crate::specs::Says::number_at))]
fn number_at(line: &[u8], place: usize) -> u16
    ensures { result ≡ number_at line.now place }
{
    match text::read::decimal_at(line, place) {
        Ok(x) => x.number,
        Err(_) => 0,
    }
}

// The number that item j says.
#[tactic(auto, unfolding(crate::specs::Says::number_of))]
fn number_of(line: &[u8], j: usize) -> u16
    requires { Short line.now j }
    ensures { result ≡ number_of line.now j }
{
    number_at(line, crate::items::item_place(line, j))
}

// The bytes that item j says, at the front of the space, and how many.
fn read_bytes(line: &[u8], j: usize, bytes: &mut [u8]) -> usize
    requires { HexItem line.now j bytes.old }
    ensures { (result ≡ byte_count line.now j) × (bytes.new ≡ sets bytes.old 0 (bytes_in line.now j)) }
{
    let from = crate::items::item_place(line, j);
    let n = (crate::items::item_end(line, from) - from) / 2;
    text::hexadecimal::read_hex(line, from, n, bytes);
    n
}

// ---- setup G N T K I D S

#[tactic(auto, unfolding(crate::specs::Says::set_up_of))]
fn set_up(line: &[u8]) -> SetUp
    requires { length line.now ≤ 8192 }
    ensures { result ≡ set_up_of line.now }
{
    SetUp {
        group: u32::from(number_of(line, 1)),
        n: u32::from(number_of(line, 2)),
        t: u32::from(number_of(line, 3)),
        k: u32::from(number_of(line, 4)),
        i: u32::from(number_of(line, 5)),
        d: u32::from(number_of(line, 6)),
        session: u32::from(number_of(line, 7)),
    }
}

// ---- deal SECRET COIN COIN ..

// The m numbers behind the secret.
fn read_coins(line: &[u8], m: usize, coins: &mut [u16])
    requires { (length line.now ≤ 8192) × (m ≤ 4096) × (length coins.old ≡ 4096) }
    ensures { coins.new ≡ sets coins.old 0 (coins_in line.now m) }
{
    let mut place = crate::items::item_place(line, 2);
    for j in 0..m {
        coins[j] = number_at(line, place);
        place = crate::items::item_end(line, place) + 1;
    }
}

fn deal(line: &[u8], coins: &mut [u16]) -> Said
    requires { Dealt line.now coins.old }
    ensures { (result ≡ command_of line.now word.Deal) × (coins.new ≡ sets coins.old 0 (coins_of line.now word.Deal)) }
{
    let secret = u32::from(number_of(line, 1));
    let m = crate::items::count_items(line) - 1;
    read_coins(line, m, coins);
    Said::Deal { secret, coins: m }
}

// ---- help, help N

fn help(line: &[u8]) -> Said
    requires { length line.now ≤ 8192 }
    ensures { result ≡ command_of line.now word.Help }
{
    if crate::items::count_items(line) == 0 {
        Said::Help
    } else {
        Said::HelpOf(usize::from(number_of(line, 1)))
    }
}

// ---- a line

// A line that is taken, by its word.
fn command(line: &[u8], word: Word, coins: &mut [u16], bytes: &mut [u8]) -> Said
    requires { Taken line.now word coins.old bytes.old }
    ensures { Answers (command_of line.now word) (coins_of line.now word) (bytes_of line.now word)
        result coins.old coins.new bytes.old bytes.new }
{
    match word {
        Word::SetUp => Said::SetUp(set_up(line)),
        Word::Lend => Said::Lend(usize::from(number_of(line, 1))),
        Word::Deal => deal(line, coins),
        Word::Deliver => {
            let sender = u32::from(number_of(line, 1));
            let n = read_bytes(line, 2, bytes);
            Said::Deliver { sender, bytes: n }
        }
        Word::Recover => Said::Recover,
        Word::Show => Said::Show,
        Word::Help => help(line),
        Word::Read => Said::Read(read_bytes(line, 1, bytes)),
        Word::Points => Said::Points(usize::from(number_of(line, 1))),
        Word::Quit => Said::Quit,
    }
}

// What it says, its coins and its bytes at the front of the space that was lent for them.
pub fn read(line: &[u8], coins: &mut [u16], bytes: &mut [u8]) -> Said
    requires { Lent line.now coins.old bytes.old }
    ensures { Speaks line.now result coins.old coins.new bytes.old bytes.new }
{
    match crate::judging::judge(line) {
        Ok(None) => Said::Nothing,
        Ok(Some(word)) => command(line, word, coins, bytes),
        Err(reason) => Said::Bad(reason),
    }
}

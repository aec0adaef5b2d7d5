// The lines that the console takes, and what the answer numbers mean.
ghost use Rattle.std.specs.Prelude.{◌≡◌, ◌+◌, ◌≤◌, length};
ghost use Rattle.arrayvec.specs.ArrayVec.{array_vec_len};
ghost use Rattle.text.specs.Pages.{Adds};
ghost use Rattle.console_shows.specs.Help.{help_lines, line_end, line_place, line_of, help_line};

use arrayvec::ArrayVec;
use text::page::put_word;

#[tactic(auto, using(text::specs::Pages::adds_room), unfolding(crate::specs::Help::help_lines, rules::specs::Text::text))]
pub fn put_help<const N: usize>(page: &mut ArrayVec<u8, N>)
    requires { array_vec_len page.old + 720 ≤ N }
    ensures { Adds page.old help_lines 720 page.new }
{
    put_word(
        page,
        b"\
        setup G N T K I D S       a new box: group, n, t, k, its number, dealer, session\n\
        lend L                    the lent buffer has L bytes from now on, 0 to 4096\n\
        deal SECRET COIN COIN ..  2 k k - 1 coins\n\
        deliver SENDER HEX        a message of a sender; - for no bytes\n\
        recover                   the recovery command\n\
        show                      what the box holds\n\
        points P                  what the senders' places of place P hold, 0 to 19\n\
        read HEX                  what a message says, whatever the box\n\
        help N                    what answer N means, 0 to 20\n\
        # anything                no answer; neither has an empty line\n\
        quit                      ends the program\n",
    );
}

// ---- the numbers
//
// Their lines are one text, as `answer_lines` is: with a constant array of lines the proof did not close.

// Where the line from i on ends.
#[tactic(auto, using(folds::specs::Below::first_from_same, crate::specs::Help::newline_at), unfolding(crate::specs::Help::line_end, text::specs::Finds::byte_from))]
fn line_end(b: &[u8], i: usize) -> usize
    ensures { result ≡ line_end b.now i }
{
    text::read::byte_from(b, i, b'\n')
}

// Where line n starts.
fn line_place(b: &[u8], n: u32) -> usize
    requires { length b.now ≤ 65535 }
    ensures { result ≡ line_place b.now n }
{
    let mut place = 0;
    for _ in 0..n {
        place = line_end(b, place) + 1;
    }
    place
}

// Line n without its newline.
#[tactic(auto, using(crate::specs::Help::line_added))]
fn put_line<const N: usize>(page: &mut ArrayVec<u8, N>, b: &[u8], n: u32)
    requires { (length b.now ≤ 65535) × (array_vec_len page.old + length b.now ≤ N) }
    ensures { Adds page.old (line_of b.now n) (length b.now) page.new }
{
    let start = line_place(b, n);
    if let Some(line) = b.get(start..line_end(b, start)) {
        put_word(page, line);
    }
}

// What answer n means, and what the box did with the message or with its record.
#[tactic(auto, using(text::specs::Pages::adds_then, text::specs::Pages::adds_room), unfolding(crate::specs::Help::help_line, crate::specs::Help::answer_lines, rules::specs::Text::text))]
pub fn put_answer<const N: usize>(page: &mut ArrayVec<u8, N>, n: u32)
    requires { array_vec_len page.old + 2060 ≤ N }
    ensures { Adds page.old (help_line n) 2060 page.new }
{
    put_line(
        page,
        b"\
        answer 0: accepted; the box did what was asked, and a message's sender is heard for its tag from now on\n\
        answer 1: the sender is 0 or above n; the message is dropped and the record is as it was\n\
        answer 2: no message of this k: too short, or its tag, size, length or k is wrong; the message is dropped and the record is as it was\n\
        answer 3: the dealer or the session is another; the message is dropped and the record is as it was\n\
        answer 4: a send from a box other than the dealer; the message is dropped and the record is as it was\n\
        answer 5: a recovery share before this box has completed and been commanded; the message is dropped and the record is as it was\n\
        answer 6: a recovery share after the pair was given; the message is dropped and the record is as it was\n\
        answer 7: the sender is already heard for this tag; the message is dropped and the record is as it was\n\
        answer 8: a matrix entry is 0, is p or more, or is not in the group; the message is dropped, but its sender is heard for its tag from now on\n\
        answer 9: an exponent is q or more; the message is dropped, but its sender is heard for its tag from now on, unless it is a recovery share\n\
        answer 10: the check of its kind fails; the message is dropped, but its sender is heard for its tag from now on, unless it is a recovery share\n\
        answer 11: a set-up with a group that is not 1 or 2; there is no box now\n\
        answer 12: a set-up with a number that breaks its rule, and there is no box now; or another call on a record that is not sound, which stays\n\
        answer 13: a deal by another box than the dealer or again, or a recovery command before completion or again; nothing is done\n\
        answer 14: the secret or a coin is q or more, or the coins are not 2 k k - 1 in number; nothing is done and the record is as it was\n\
        answer 15: the lent buffer has fewer than 2048 bytes; nothing is done and the record is as it was\n\
        answer 16: no call gives this number yet\n\
        answer 17: no call gives this number yet\n\
        answer 18: no call gives this number yet\n\
        answer 19: no call gives this number yet\n\
        answer 20: no call gives this number yet\n",
        n,
    );
    put_word(page, b"\n");
}

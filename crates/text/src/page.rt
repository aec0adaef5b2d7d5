// Writers that add to a page, an array with a length of its own.
ghost use Rattle.std.specs.Prelude.{◌≡◌, ◌+◌, ◌*◌, ◌≤◌, ◌<◌, ◌++◌, length};
ghost use Rattle.std.proofs.lemmas.List.Edits.{sets};
ghost use Rattle.rules.specs.Messages.{written};
ghost use Rattle.rules.specs.Text.{decimal};
ghost use Rattle.arrayvec.specs.ArrayVec.{array_vec_len};
ghost use Rattle.text.specs.Hexadecimal.{glyph, hex_of};
ghost use Rattle.text.specs.Pages.{Adds, digits, numbers_of};

use arrayvec::ArrayVec;

// The bytes of a word. They have room.
pub fn put_word<const N: usize>(page: &mut ArrayVec<u8, N>, w: &[u8])
    requires { array_vec_len page.old + length w.now ≤ N }
    ensures { Adds page.old w.now (length w.now) page.new }
{
    let _ = page.try_extend_from_slice(w);
}

// A digit for each of the n highest powers of ten that is not above x, and the last digit.
pub fn put_digits<const N: usize>(page: &mut ArrayVec<u8, N>, n: u32, x: usize)
    requires { (n < 20) × (array_vec_len page.old + n + 1 ≤ N) }
    ensures { Adds page.old (digits n x) (n + 1) page.new }
{
    for j in 0..n {
        let power = 10usize.pow(n - j);
        if power <= x {
            page.push((48 + x / power % 10) as u8);
        }
    }
    page.push((48 + x % 10) as u8);
}

// A number below 100,000 has five digits at most.
#[tactic(auto, unfolding(crate::specs::Pages::digits, rules::specs::Text::decimal))]
pub fn put_decimal<const N: usize>(page: &mut ArrayVec<u8, N>, x: u32)
    requires { array_vec_len page.old + 5 ≤ N }
    ensures { Adds page.old (decimal x) 5 page.new }
{
    put_digits(page, 4, x as usize);
}

// A word and a number behind it.
#[tactic(auto, using(crate::specs::Pages::adds_then))]
pub fn put_numbered<const N: usize>(page: &mut ArrayVec<u8, N>, word: &[u8], x: u16)
    requires { array_vec_len page.old + length word.now + 5 ≤ N }
    ensures { Adds page.old (word.now ++ decimal x) (length word.now + 5) page.new }
{
    put_word(page, word);
    put_decimal(page, u32::from(x));
}

// ---- hexadecimal

fn glyph(x: u8) -> u8
    requires { x < 16 }
    ensures { result ≡ glyph x }
{
    if x < 10 { b'0' + x } else { b'a' + (x - 10) }
}

// Digits over all of a slice, two for each of these bytes.
fn fill_hex(out: &mut [u8], bytes: &[u8])
    requires { length out.old ≡ 2 * length bytes.now }
    ensures { out.new ≡ sets out.old 0 (hex_of bytes.now 0 (length bytes.now)) }
{
    for j in 0..bytes.len() {
        out[2 * j] = glyph(bytes[j] / 16);
        out[2 * j + 1] = glyph(bytes[j] % 16);
    }
}

// These bytes, two digits each. The bytes, put twice, make the room in which the digits are filled: one after the other onto the page
// they take six times as long.
pub fn put_hex<const N: usize>(page: &mut ArrayVec<u8, N>, bytes: &[u8])
    requires { array_vec_len page.old + 2 * length bytes.now ≤ N }
    ensures { Adds page.old (hex_of bytes.now 0 (length bytes.now)) (2 * length bytes.now) page.new }
{
    let at = page.len();
    put_word(page, bytes);
    put_word(page, bytes);
    fill_hex(&mut page.as_mut_slice()[at..], bytes);
}

// ---- numbers

// A space and a number, for each of these.
#[tactic(auto, using(crate::specs::Pages::runs_all), unfolding(crate::specs::Pages::numbers_of))]
pub fn put_numbers<const N: usize>(page: &mut ArrayVec<u8, N>, numbers: &[u16])
    requires { array_vec_len page.old + 6 * length numbers.now ≤ N }
    ensures { Adds page.old (numbers_of numbers.now) (6 * length numbers.now) page.new }
{
    for &number in numbers {
        page.push(b' ');
        put_decimal(page, u32::from(number));
    }
}

// ---- a page that is lent as a slice

// What stands on the page goes to the front of the slice; how many bytes that is.
#[tactic(auto, unfolding(rules::specs::Messages::written))]
pub fn copy_to<const N: usize>(page: &ArrayVec<u8, N>, out: &mut [u8]) -> usize
    requires { array_vec_len page.now ≤ length out.old }
    ensures { (result ≡ array_vec_len page.now) × (out.new ≡ written page.now.items out.old) }
{
    let n = page.len();
    out[..n].copy_from_slice(page.as_slice());
    n
}

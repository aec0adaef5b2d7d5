// Hexadecimal in small letters, two digits a byte: reading. `page` puts it.
ghost use Rattle.std.specs.Prelude.{◌≡◌, true, ◌+◌, ◌*◌, ◌≤◌, ◌<◌, length};
ghost use Rattle.std.proofs.lemmas.List.Edits.{sets};
ghost use Rattle.text.specs.Hexadecimal.{
  is_hex_digit,
  hex_digit,
  hex_at,
  hex_said,
  hex_bytes,
};

fn is_hex_digit(x: u8) -> bool
    ensures { result ≡ is_hex_digit x }
{
    matches!(x, b'0'..=b'9' | b'a'..=b'f')
}

fn hex_digit(x: u8) -> u8
    requires { is_hex_digit x ≡ true }
    ensures { (result ≡ hex_digit x) × (result < 16) }
{
    if x <= b'9' { x - b'0' } else { x - 87 }
}

// 2n digits stand from i on.
pub fn hex_at(b: &[u8], i: usize, n: usize) -> bool
    ensures { result ≡ hex_at b.now i n }
{
    if b.len() <= i {
        return n == 0;
    }
    if (b.len() - i) / 2 < n {
        return false;
    }
    b[i..i + 2 * n].iter().all(|x| is_hex_digit(*x))
}

// The byte that the two digits from i on say.
fn hex_byte(b: &[u8], i: usize) -> u8
    requires { hex_at b.now i 1 ≡ true }
    ensures { result ≡ hex_said b.now i }
{
    hex_digit(b[i]) * 16 + hex_digit(b[i + 1])
}

// The n bytes that the digits from i on say, at the front of the buffer.
pub fn read_hex(b: &[u8], i: usize, n: usize, out: &mut [u8])
    requires { (hex_at b.now i n ≡ true) × (n ≤ length out.old) }
    ensures { out.new ≡ sets out.old 0 (hex_bytes b.now i n) }
{
    for j in 0..n {
        out[j] = hex_byte(b, i + 2 * j);
    }
}

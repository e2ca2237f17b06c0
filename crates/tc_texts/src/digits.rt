//! Appending digits to texts of fixed capacity.

ghost use Rattle.std.specs.Prelude.{◌≡◌, ◌↔◌, IsTrue, ◌+◌, ◌<◌, ◌≤◌, [], ◌∷◌, ◌++◌, decimal};
ghost use Rattle.std.specs.Char.{digit_char};
ghost use Rattle.std.specs.Net.Text.{hex};
ghost use Rattle.arrayvec.specs.ArrayString.{array_string_len};
ghost use Rattle.tc_texts.specs.Hex.{octet_text};

use arrayvec::ArrayString;

/// The lower-case hex digit of a number below 16.
pub fn hex_digit(n: u8) -> u8
    requires { n < 16 }
    ensures { result ≡ digit_char n }
{
    if n < 10 { b'0' + n } else { b'a' + (n - 10) }
}

/// Appends one hex digit.
fn push_digit<const N: usize>(text: &mut ArrayString<N>, n: u8)
    requires digit { n < 16 }
    requires room { array_string_len text.old + 1 ≤ N }
    ensures bytes { text.new.bytes ≡ text.old.bytes ++ digit_char n ∷ [] }
    ensures len { array_string_len text.new ≡ array_string_len text.old + 1 }
{
    text.push(char::from(hex_digit(n)));
}

/// An octet as two hex digits.
pub(crate) fn octet_text(octet: u8) -> ArrayString<2>
    ensures { result.bytes ≡ octet_text octet }
{
    let mut text = ArrayString::new();
    push_octet(&mut text, octet);
    text
}

/// Appends an octet as two hex digits.
pub(crate) fn push_octet<const N: usize>(text: &mut ArrayString<N>, octet: u8)
    requires { array_string_len text.old + 2 ≤ N }
    ensures bytes { text.new.bytes ≡ text.old.bytes ++ octet_text octet }
    ensures len { array_string_len text.new ≡ array_string_len text.old + 2 }
{
    push_digit(text, octet / 16);
    push_digit(text, octet % 16);
}

/// Appends a 16-bit number in hex, without leading zeros.
pub(crate) fn push_hex<const N: usize>(text: &mut ArrayString<N>, n: u16)
    requires { array_string_len text.old + 4 ≤ N }
    ensures bytes { text.new.bytes ≡ text.old.bytes ++ hex n }
    ensures len { array_string_len text.new ≤ array_string_len text.old + 4 }
{
    if n >= 0x1000 {
        push_digit(text, (n / 0x1000) as u8);
    }
    if n >= 0x100 {
        push_digit(text, (n / 0x100 % 16) as u8);
    }
    if n >= 0x10 {
        push_digit(text, (n / 0x10 % 16) as u8);
    }
    push_digit(text, (n % 16) as u8);
}

/// Appends an octet in decimal.
pub(crate) fn push_decimal<const N: usize>(text: &mut ArrayString<N>, n: u8)
    requires { array_string_len text.old + 3 ≤ N }
    ensures bytes { text.new.bytes ≡ text.old.bytes ++ decimal n }
    ensures len { array_string_len text.new ≤ array_string_len text.old + 3 }
{
    let mut buffer = itoa::Buffer::new();
    text.push_str(buffer.format(n));
}

/// True if two texts are equal: `==`, with the contract that proofs need.
pub(crate) fn is_same(a: &str, b: &str) -> bool
    ensures { IsTrue result ↔ (a.now ≡ b.now) }
{
    a == b
}

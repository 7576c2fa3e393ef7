//! Numbers in decimal and bytes in hexadecimal, each in one spelling.

ghost use Rattle.std.specs.Prelude.{◌≡◌, ◌≢◌, ◌<◌, ◌≤◌, ◌^◌, ℕ, List, None, All, length, false, IfSome, IsTrue};
ghost use Rattle.std.specs.Fmt.{decimal};
ghost use Rattle.std.specs.List.{list_any};
ghost use Rattle.std.specs.Char.{is_ascii_uppercase};
ghost use Rattle.hex.specs.Hex.{encode_lower};
ghost use Rattle.text_lines.specs.Fields.{word_digits};

use decimal_text::read_decimal;

/// The number within this range that a text is the decimal text of.
pub fn read_number_between(text: &[u8], least: u64, most: u64) -> Option<u64>
    ensures some { IfSome result (λ number. (text.now ≡ decimal number) × (least ≤ number) × (number ≤ most)) }
    ensures none { result ≡ None → (number : ℕ) → least ≤ number → number ≤ most → text.now ≢ decimal number }
{
    let number = read_decimal(text)?;
    if number < least || most < number {
        return None;
    }
    Some(number)
}

/// The number up to this one that a text is the decimal text of.
pub fn read_number(text: &[u8], most: u64) -> Option<u64>
    ensures some { IfSome result (λ number. (text.now ≡ decimal number) × (number ≤ most)) }
    ensures none { result ≡ None → (number : ℕ) → number ≤ most → text.now ≢ decimal number }
{
    read_number_between(text, 0, most)
}

/// Whether a text has a letter in upper case.
fn has_upper_case(text: &[u8]) -> bool
    ensures { result ≡ list_any is_ascii_uppercase text.now }
{
    text.iter().any(|letter| letter.is_ascii_uppercase())
}

/// Whether a text is the hexadecimal digits, in lower case, of as many bytes as there is room for,
/// which are then written. Else some bytes are.
pub fn read_digits(text: &[u8], bytes: &mut [u8]) -> bool
    ensures yes { IsTrue result → text.now ≡ encode_lower bytes.new }
    ensures no { result ≡ false → (other : List ℕ) → length other ≡ length bytes.old →
        All (λ byte. byte < 256) other → text.now ≢ encode_lower other }
    ensures in_range { All (λ byte. byte < 256) bytes.new }
{
    if has_upper_case(text) {
        return false;
    }
    hex::decode_to_slice(text, bytes).is_ok()
}

/// The word that eight hexadecimal digits in lower case spell.
pub fn read_word(digits: &[u8]) -> Option<u32>
    ensures some { IfSome result (λ word. (digits.now ≡ word_digits word) × (word < 2 ^ 32)) }
    ensures none { result ≡ None → (word : ℕ) → word < 2 ^ 32 → digits.now ≢ word_digits word }
{
    let mut bytes = [0; 4];
    if !read_digits(digits, &mut bytes) {
        return None;
    }
    Some(u32::from_be_bytes(bytes))
}

//! Lines of a text, and fields of a line.

ghost use Rattle.std.specs.Prelude.{◌≡◌, ◌≢◌, ◌++◌, ◌∷◌, ℕ, List, None, All, IfSome};
ghost use Rattle.std.specs.Char.{is_ascii_graphic};
ghost use Rattle.std.specs.List.{list_all};
ghost use Rattle.text_lines.specs.Fields.{is_name};
ghost use Rattle.text_lines.specs.Lines.{Unbroken};

/// What follows this beginning.
pub fn after<'a>(line: &'a [u8], beginning: &[u8]) -> Option<&'a [u8]>
    ensures some { IfSome result (λ rest. line.entry.now ≡ beginning.entry.now ++ rest.now) }
    ensures none { result ≡ None → (rest : List ℕ) → line.entry.now ≢ beginning.entry.now ++ rest }
{
    if !line.starts_with(beginning) {
        return None;
    }
    let (_, rest) = line.split_at(beginning.len());
    Some(rest)
}

/// The parts before and after the first such byte.
pub fn split_at_byte<'a>(bytes: &'a [u8], byte: u8) -> Option<(&'a [u8], &'a [u8])>
    ensures some { IfSome result (λ parts.
        (bytes.entry.now ≡ parts.0.now ++ byte ∷ parts.1.now) × All (λ other. other ≢ byte) parts.0.now) }
    ensures none { result ≡ None → All (λ other. other ≢ byte) bytes.entry.now }
{
    let place = bytes.iter().position(|other| *other == byte)?;
    let (front, rest) = bytes.split_at(place);
    let (_, back) = rest.split_at(1);
    Some((front, back))
}

/// The first line, without its line end, and what follows it. None where no line has its line end.
pub fn split_line<'a>(text: &'a [u8]) -> Option<(&'a [u8], &'a [u8])>
    ensures some { IfSome result (λ parts. (text.entry.now ≡ parts.0.now ++ 10 ∷ parts.1.now) × Unbroken parts.0.now) }
    ensures none { result ≡ None → Unbroken text.entry.now }
{
    split_at_byte(text, b'\n')
}

/// Whether all bytes are those of printed characters of ASCII other than the space.
fn all_graphic(text: &[u8]) -> bool
    ensures { result ≡ list_all is_ascii_graphic text.now }
{
    text.iter().all(|byte| byte.is_ascii_graphic())
}

/// Whether a text is a name: 1 to 255 printed characters of ASCII other than the space.
pub fn is_name(text: &[u8]) -> bool
    ensures { result ≡ is_name text.now }
{
    0 < text.len() && text.len() < 256 && all_graphic(text)
}

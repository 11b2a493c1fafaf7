//! Classes of bytes.

ghost use Rattle.std.specs.Prelude.{◌≡◌, ◌≢◌, ◌<◌, ◌≤◌, length, slice_index, true};
ghost use Rattle.mlir_lex.specs.Bytes as spec;

/// The bytes that may stand at one place of a token.
#[derive(Clone, Copy)]
pub enum ByteClass {
    Blank,
    /// What a comment may hold.
    Line,
    NameStart,
    NamePart,
    /// What may follow `%`, `^`, `@` or `#`.
    SuffixPart,
    Digit,
    HexDigit,
    /// What a backslash may stand before, other than two hexadecimal digits.
    ShortEscape,
    /// The bytes that are a token alone.
    Mark,
}

impl ByteClass {
    #[tactic(auto, unfolding(crate::specs::Bytes::is_in))]
    pub fn has(self, byte: u8) -> bool
        ensures { result ≡ spec.is_in self byte }
    {
        match self {
            ByteClass::Blank => matches!(byte, b' ' | b'\t' | b'\r' | b'\n'),
            ByteClass::Line => byte != b'\n',
            ByteClass::NameStart => byte.is_ascii_alphabetic() || byte == b'_',
            ByteClass::NamePart => byte.is_ascii_alphanumeric()
                || matches!(byte, b'_' | b'$' | b'.'),
            ByteClass::SuffixPart => byte.is_ascii_alphanumeric()
                || matches!(byte, b'_' | b'$' | b'.' | b'-'),
            ByteClass::Digit => byte.is_ascii_digit(),
            ByteClass::HexDigit => byte.is_ascii_hexdigit(),
            ByteClass::ShortEscape => matches!(byte, b'"' | b'\\' | b'n' | b't'),
            ByteClass::Mark => matches!(
                byte,
                b'(' | b')'
                    | b'{'
                    | b'}'
                    | b'['
                    | b']'
                    | b'<'
                    | b'>'
                    | b','
                    | b':'
                    | b'='
                    | b'-'
                    | b'*'
            ),
        }
    }
}

/// The byte at this place, or 0 past the end.
pub fn byte_at(text: &[u8], at: usize) -> u8
    ensures value { result ≡ slice_index text.now at }
    ensures within { result ≢ 0 → at < length text.now }
{
    if at < text.len() { text[at] } else { 0 }
}

/// The first place from `at` on whose byte isn't of the class.
pub fn past(class: ByteClass, text: &[u8], at: usize) -> usize
    requires { at ≤ length text.now }
    ensures value { result ≡ spec.past class text.now at }
    ensures within { (at ≤ result) × (result ≤ length text.now) }
{
    let mut end = at;
    while end < text.len() && class.has(text[end]) {
        end += 1;
    }
    end
}

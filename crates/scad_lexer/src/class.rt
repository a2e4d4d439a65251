//! Classes of bytes.

ghost use Rattle.std.specs.Prelude.{◌≡◌, ◌≤◌, IsTrue, length};
ghost use Rattle.scad_lexer.specs.Words.{run_of};
ghost use Rattle.scad_lexer.specs.Scanning.{is_of_class, begins_with};

/// A class of bytes.
#[derive(Clone, Copy, Debug, PartialEq, Eq)]
pub enum ByteClass {
    /// Space, tab, carriage return and newline.
    BlankByte,
    /// A letter or `_`.
    Letter,
    Digit,
    /// A letter, `_` or a digit.
    NameByte,
    /// Any byte but newline.
    InLine,
    /// The letter of an exponent.
    Exponent,
    /// `+` or `-`.
    Sign,
    /// A byte that may stand in a text.
    Printable,
    /// One byte.
    Byte(u8),
}

impl ByteClass {
    /// Whether a byte is of this class.
    pub fn has(self, byte: u8) -> bool
        ensures { result ≡ is_of_class self byte }
    {
        match self {
            ByteClass::BlankByte => matches!(byte, b' ' | b'\t' | b'\r' | b'\n'),
            ByteClass::Letter => byte.is_ascii_alphabetic() || byte == b'_',
            ByteClass::Digit => byte.is_ascii_digit(),
            ByteClass::NameByte => byte.is_ascii_alphanumeric() || byte == b'_',
            ByteClass::InLine => byte != b'\n',
            ByteClass::Exponent => byte == b'e' || byte == b'E',
            ByteClass::Sign => byte == b'+' || byte == b'-',
            ByteClass::Printable => (b' '..=b'~').contains(&byte),
            ByteClass::Byte(only) => byte == only,
        }
    }

    /// Whether the text begins with a byte of this class.
    pub fn begins(self, text: &[u8]) -> bool
        ensures begins { result ≡ begins_with (is_of_class self) text.now }
        ensures some { IsTrue result → 1 ≤ length text.now }
    {
        match text {
            [] => false,
            [byte, ..] => self.has(*byte),
        }
    }

    /// How many bytes at the front are of this class.
    #[tactic(auto, using(crate::proofs::Longest::run_more, crate::proofs::Longest::run_stop, crate::proofs::Longest::run_end))]
    pub fn run(self, text: &[u8]) -> usize
        ensures run { result ≡ run_of (is_of_class self) text.now }
        ensures within { result ≤ length text.now }
    {
        let mut n = 0;
        while n < text.len() && self.has(text[n]) {
            n += 1;
        }
        n
    }
}

//! Kinds of bytes, and the longest runs of them.

ghost use Rattle.std.specs.Prelude.{◌≡◌, ◌≤◌, length};
ghost use Rattle.std.specs.List.{prefix_len};
ghost use Rattle.ws_words.specs.Digits as digits;
ghost use Rattle.src_ast.specs.Lexemes as lexemes;
ghost use Rattle.ws_words.specs.Letters.{is_letter, is_word_byte};

/// Whether a byte is a space, a tab or the end of a line.
pub fn is_blank(byte: u8) -> bool
    ensures { result ≡ lexemes.is_blank byte }
{
    matches!(byte, b' ' | b'\t' | b'\r' | b'\n')
}

/// Whether a word can begin with the byte.
pub fn is_letter(byte: u8) -> bool
    ensures { result ≡ is_letter byte }
{
    matches!(byte, b'A'..=b'Z' | b'a'..=b'z' | b'_')
}

/// Whether a byte is a decimal digit.
pub fn is_digit(byte: u8) -> bool
    ensures { result ≡ digits.is_digit byte }
{
    matches!(byte, b'0'..=b'9')
}

/// How many bytes of a word the text begins with.
pub fn word_length(text: &[u8]) -> usize
    ensures longest { result ≡ prefix_len is_word_byte text.now }
    ensures within { result ≤ length text.now }
{
    text.iter()
        .take_while(|b| is_letter(**b) || is_digit(**b))
        .count()
}

/// How many digits the text begins with.
pub fn number_length(text: &[u8]) -> usize
    ensures longest { result ≡ prefix_len digits.is_digit text.now }
    ensures within { result ≤ length text.now }
{
    text.iter().take_while(|b| is_digit(**b)).count()
}

//! Blanks and comments.

ghost use Rattle.std.specs.Prelude.{◌≡◌, ◌≤◌, ◌==◌, not, length, take, drop, IsTrue};
ghost use Rattle.std.specs.List.{prefix_len};
ghost use Rattle.src_ast.specs.Lexemes as lexemes;
ghost use Rattle.src_lex.specs.Reads.{ends_gap};

use crate::class::is_blank;

/// How many bytes stand before the next line feed, or before the end of the text.
fn line_length(text: &[u8]) -> usize
    ensures { result ≡ prefix_len (λ c. not (c == 10)) text.now }
{
    text.iter().take_while(|b| **b != b'\n').count()
}

/// How many bytes a blank or a comment takes that the text begins with, or 0 if neither stands
/// there.
#[tactic(auto, using(crate::proofs::Gaps::pieces))]
fn piece_length(text: &[u8]) -> usize
    ensures within { result ≤ length text.now }
    ensures gap { IsTrue (lexemes.is_gap (take result text.now)) }
    ensures none { result ≡ 0 → IsTrue (ends_gap text.now) }
{
    match text.split_first() {
        Some((first, _)) if is_blank(*first) => 1,
        Some((b'#', rest)) => {
            let length = line_length(rest);
            if length < rest.len() { length + 2 } else { 0 }
        }
        _ => 0,
    }
}

/// How many bytes of blanks and comments the text begins with.
#[tactic(auto, using(crate::proofs::Gaps::gaps))]
pub fn gap_length(text: &[u8]) -> usize
    ensures within { result ≤ length text.now }
    ensures gap { IsTrue (lexemes.is_gap (take result text.now)) }
    ensures whole { IsTrue (ends_gap (drop result text.now)) }
{
    let mut length = 0;
    loop {
        let (_, rest) = text.split_at(length);
        let more = piece_length(rest);
        if more == 0 {
            return length;
        }
        length += more;
    }
}

/// Whether nothing stands here but a comment that the end of the text closes.
#[tactic(auto, using(crate::proofs::Gaps::ends))]
pub fn is_end(text: &[u8]) -> bool
    ensures { result ≡ lexemes.is_end text.now }
{
    match text.split_first() {
        Some((b'#', rest)) => line_length(rest) >= rest.len(),
        Some(_) => false,
        None => true,
    }
}

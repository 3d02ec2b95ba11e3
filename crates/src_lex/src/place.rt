//! Places in a text.

ghost use Rattle.std.specs.Prelude.{◌≡◌, ◌+◌, ◌<◌, ◌≤◌, ◌^◌, length};
ghost use Rattle.src_ast.specs.Lexemes as lexemes;

use src_ast::Place;

/// Where the byte after this one stands.
fn past(at: Place, byte: u8) -> Place
    requires line { 0 < at.line }
    requires column { 0 < at.column }
    requires room { at.line + at.column < 2 ^ 32 }
    ensures { result ≡ lexemes.past at byte }
{
    if byte == b'\n' {
        Place {
            line: at.line + 1,
            column: 1,
        }
    } else {
        Place {
            line: at.line,
            column: at.column + 1,
        }
    }
}

/// Where what stands after these bytes begins, where they begin at a place.
#[tactic(auto, using(crate::proofs::Places::places))]
pub fn place_after(at: Place, bytes: &[u8]) -> Place
    requires line { 0 < at.line }
    requires column { 0 < at.column }
    requires room { at.line + at.column + length bytes.now ≤ 2 ^ 32 }
    ensures following { result ≡ lexemes.after at bytes.now }
    ensures line { 0 < result.line }
    ensures column { 0 < result.column }
    ensures within { result.line + result.column ≤ at.line + at.column + length bytes.now }
{
    let mut place = at;
    for byte in bytes {
        place = past(place, *byte);
    }
    place
}

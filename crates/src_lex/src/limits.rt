//! The limits on lexemes.

ghost use Rattle.std.specs.Prelude.{◌≡◌, ◌≤◌, IfOk, IfErr};
ghost use Rattle.src_ast.specs.LanguageLimits.{most_braces, most_in_row};
ghost use Rattle.src_ast.specs.Lexemes as lexemes;
ghost use Rattle.src_lex.specs.Reads.{Exceeds};

use src_ast::{
    MOST_BRACES, MOST_IN_ROW, Mark, Place, Quantity, Refusal, RefusalKind, Shape, TextFault,
};

/// What the limits count, at a place in a text.
#[derive(Clone, Copy)]
pub struct Counts {
    /// Open braces.
    pub depth: u32,
    /// Lexemes after the last `;`, `{` or `}`.
    pub row: u32,
}

/// The braces that are open after a lexeme.
fn open_past(depth: u32, shape: &Shape) -> u32
    requires { depth ≤ most_braces }
    ensures { result ≡ lexemes.open_past depth shape.now }
{
    match shape {
        Shape::Mark(Mark::LBrace) => depth + 1,
        Shape::Mark(Mark::RBrace) => depth.saturating_sub(1),
        _ => depth,
    }
}

/// The lexemes that stand in a row after a lexeme.
fn row_past(row: u32, shape: &Shape) -> u32
    requires { row ≤ most_in_row }
    ensures { result ≡ lexemes.row_past row shape.now }
{
    match shape {
        Shape::Mark(Mark::Semi | Mark::LBrace | Mark::RBrace) => 0,
        _ => row + 1,
    }
}

impl Counts {
    /// The counts after a lexeme that stands at this place.
    #[tactic(auto, using(crate::proofs::Excess::limits))]
    pub fn past(self, shape: &Shape, place: Place) -> Result<Counts, TextFault>
        requires depth { self.depth ≤ most_braces }
        requires row { self.row ≤ most_in_row }
        ensures depth { IfOk result (λ c.
            (c.depth ≡ lexemes.open_past self.depth shape.now) × (c.depth ≤ most_braces)) }
        ensures row { IfOk result (λ c.
            (c.row ≡ lexemes.row_past self.row shape.now) × (c.row ≤ most_in_row)) }
        ensures refused { IfErr result (λ e. Exceeds self.depth self.row shape.now place e) }
    {
        let depth = open_past(self.depth, shape);
        let row = row_past(self.row, shape);
        let kind = if depth > MOST_BRACES {
            Quantity::Depth
        } else if row > MOST_IN_ROW {
            Quantity::Lexemes
        } else {
            return Ok(Counts { depth, row });
        };
        Err(TextFault::Refused(Refusal {
            kind: RefusalKind::Limit(kind),
            place,
        }))
    }
}

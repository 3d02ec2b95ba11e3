//! What follows from the definitions of lexemes and faults.

ghost use Rattle.std.specs.Prelude.{◌≡◌, ℕ, List};
ghost use Rattle.src_ast.specs.declared.lexeme.Place.{Place};
ghost use Rattle.src_ast.specs.declared.lexeme.Lexeme.{Lexeme};
ghost use Rattle.src_ast.specs.declared.fault.Refusal.{Refusal};
ghost use Rattle.src_ast.specs.Lexemes.{Lex, KeepLimits};
ghost use Rattle.src_ast.specs.Syntax.{Part};
ghost use Rattle.src_ast.specs.Written.{IsWritten, ReadsTheSame};
ghost use Rattle.src_ast.specs.LexFaults.{LexFault, IsLexAnswer};
ghost use Rattle.src_ast.specs.Once.{ExactlyOne};

use src_ast::read_has_printed_lexemes;

/// A text has at most one list of lexemes, and its end one place.
pub fn one_lexing()
    ensures { (text : List ℕ) (a b : List Lexeme) (p q : Place)
        → Lex text a p → Lex text b q → (a ≡ b) × (p ≡ q) }
{}

/// Where a text has lexemes that keep the limits, it has no fault.
pub fn no_fault_within_limits()
    ensures { (text : List ℕ) (ls : List Lexeme) (p : Place) (r : Refusal)
        → Lex text ls p → KeepLimits 0 0 ls → LexFault text r → ⊥ }
{}

/// A text has at most one first fault.
pub fn one_fault()
    ensures { (text : List ℕ) (a b : Refusal) → LexFault text a → LexFault text b → a ≡ b }
{}

/// Each text has exactly one result: its lexemes within the limits, or its first fault.
pub fn each_text_is_lexed_once()
    ensures { (text : List ℕ) → ExactlyOne (IsLexAnswer text) }
{}

/// A program is written if its printed form has lexemes within the limits and reads as the same
/// program. (That it does so if it is written is a law of src_ast.)
pub fn what_reads_the_same_is_written()
    ensures { (parts : List Part) → ReadsTheSame parts → IsWritten parts }
{
    read_has_printed_lexemes();
}

//! Laws of the printed form and of the bound.

ghost use Rattle.std.specs.Prelude.{◌≡◌, ℕ, List, ◌≤◌};
ghost use Rattle.src_ast.specs.declared.lexeme.Lexeme.{Lexeme};
ghost use Rattle.src_ast.specs.declared.lexeme.Place.{Place};
ghost use Rattle.src_ast.specs.Syntax.{Part};
ghost use Rattle.src_ast.specs.LanguageLimits.{most_locals, most_statement_nodes};
ghost use Rattle.src_ast.specs.Lexemes.{Lex, KeepLimits};
ghost use Rattle.src_ast.specs.Grammar.{Tree};
ghost use Rattle.src_ast.specs.Bound.{widest, most_variables};
ghost use Rattle.src_ast.specs.Rules.{IsAccepted};
ghost use Rattle.src_ast.specs.Printed.{printed_form};
ghost use Rattle.src_ast.specs.Same.{Same};
ghost use Rattle.src_ast.specs.Alike.{RunAlike};
ghost use Rattle.src_ast.specs.Written.{IsWritten, ReadsTheSame, HasPrintedLexemes};

/// A program that is read from a text and accepted has a printed form that can be read.
pub fn read_is_written()
    ensures { (text : List ℕ) (ls : List Lexeme) (finish : Place) (parts : List Part)
        → Lex text ls finish → KeepLimits 0 0 ls → Tree ls parts → IsAccepted parts finish
        → IsWritten parts }
{}

/// The printed form of a program reads as the same program, places aside.
#[tactic(auto, using(crate::proofs::Again::reads_the_same))]
pub fn printed_reads_the_same()
    ensures { (parts : List Part) → IsWritten parts → ReadsTheSame parts }
{}

/// A program that is the same as one read from a text within the limits has a printed form with
/// lexemes, and is written where these keep the limits.
pub fn read_has_printed_lexemes()
    ensures { (text : List ℕ) (ls : List Lexeme) (finish : Place) (again parts : List Part)
        → Lex text ls finish → KeepLimits 0 0 ls → Tree ls again → Same parts again
        → HasPrintedLexemes parts }
{}

/// Programs that differ in places alone have one printed form.
#[tactic(auto, using(crate::proofs::Bare::printed_alike))]
pub fn same_programs_are_printed_alike()
    ensures { (a b : List Part) → Same a b → printed_form a ≡ printed_form b }
{}

/// Programs that differ in places alone are accepted alike, wherever their texts end.
#[tactic(auto, using(crate::proofs::Ruled::accepted_alike))]
pub fn same_programs_are_accepted_alike()
    ensures { (a b : List Part) (f g : Place) → Same a b → IsAccepted a f → IsAccepted b g }
{}

/// Programs that differ in places alone run alike.
#[tactic(auto, using(crate::proofs::Ran::run_alike))]
pub fn same_programs_run_alike()
    ensures { (a b : List Part) → Same a b → RunAlike a b }
{}

/// The statements of a written program have few expression nodes: fewer than lexemes in a row.
#[tactic(auto, using(crate::proofs::Narrow::written_narrow))]
pub fn written_is_narrow()
    ensures { (parts : List Part) → IsWritten parts → widest parts ≤ most_statement_nodes }
{}

/// The procedures of an accepted program have few parameters and variables.
#[tactic(auto, using(crate::proofs::Narrow::accepted_few))]
pub fn accepted_has_few_variables()
    ensures { (parts : List Part) (finish : Place)
        → IsAccepted parts finish → most_variables parts ≤ most_locals }
{}

//! What follows from the rules.

ghost use Rattle.std.specs.Prelude.{List};
ghost use Rattle.src_ast.specs.declared.lexeme.Place.{Place};
ghost use Rattle.src_ast.specs.Syntax.{Part};
ghost use Rattle.src_ast.specs.Once.{ExactlyOne};
ghost use Rattle.src_ast.specs.Rules.{IsRuleAnswer};

/// Each program has exactly one result: it is accepted, or there is a first rule that it breaks.
pub fn each_program_is_checked_once()
    ensures { (parts : List Part) (finish : Place) → ExactlyOne (IsRuleAnswer parts finish) }
{}

//! Operators of two operands.

ghost use Rattle.std.specs.Prelude.{◌≡◌};
ghost use Rattle.src_ast.specs.Grammar.{level_of};

use ws_words::Alu;

/// How tightly an operator binds: from 0, the loosest, to 7.
pub fn level(op: Alu) -> u8
    ensures { result ≡ level_of op }
{
    match op {
        Alu::Or => 0,
        Alu::Xor => 1,
        Alu::And => 2,
        Alu::Eq | Alu::Ne => 3,
        Alu::Lt | Alu::Le | Alu::Gt | Alu::Ge => 4,
        Alu::Shl | Alu::Shr => 5,
        Alu::Add | Alu::Sub => 6,
        Alu::Mul | Alu::Div | Alu::Rem => 7,
    }
}

//! The operators of two words.

ghost use Rattle.std.specs.Prelude.{◌≡◌};
ghost use Rattle.ws_words.specs.Operators.{applied};

/// An operator of two words.
#[derive(Clone, Copy, Debug, PartialEq, Eq)]
pub enum Alu {
    Add,
    Sub,
    Mul,
    Div,
    Rem,
    And,
    Or,
    Xor,
    Shl,
    Shr,
    Eq,
    Ne,
    Lt,
    Le,
    Gt,
    Ge,
}

/// The value of an operator on two words: arithmetic modulo 2^64, order unsigned, a comparison is 1
/// or 0, a shift amount counts modulo 64, `x / 0` is 2^64-1 and `x % 0` is `x`.
pub fn apply(op: Alu, a: u64, b: u64) -> u64
    ensures { result ≡ applied op a b }
{
    match op {
        Alu::Add => a.wrapping_add(b),
        Alu::Sub => a.wrapping_sub(b),
        Alu::Mul => a.wrapping_mul(b),
        Alu::Div => a.checked_div(b).unwrap_or(u64::MAX),
        Alu::Rem => a.checked_rem(b).unwrap_or(a),
        Alu::And => a & b,
        Alu::Or => a | b,
        Alu::Xor => a ^ b,
        Alu::Shl => a << (b % 64),
        Alu::Shr => a >> (b % 64),
        Alu::Eq => u64::from(a == b),
        Alu::Ne => u64::from(a != b),
        Alu::Lt => u64::from(a < b),
        Alu::Le => u64::from(a <= b),
        Alu::Gt => u64::from(a > b),
        Alu::Ge => u64::from(a >= b),
    }
}

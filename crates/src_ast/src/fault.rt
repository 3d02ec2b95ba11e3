//! Why a text is refused.

use crate::lexeme::Place;
use ws_words::NoMemory;

/// What a limit of the language counts: see the constants `MOST_..`.
#[derive(Clone, Copy, Debug, PartialEq, Eq)]
pub enum Quantity {
    /// Bytes in a word.
    NameBytes,
    /// Open braces.
    Depth,
    /// Lexemes in a row, none of which is `;`, `{` or `}`.
    Lexemes,
    /// Arrays.
    Arrays,
    /// Cells of an array.
    Length,
    /// Cells of all arrays together.
    CellSum,
    /// Procedures, `main` included.
    Procs,
    /// Parameters of a procedure.
    Params,
    /// Parameters and variables of a procedure together.
    Vars,
    /// Statements of the program, `return` included.
    Statements,
    /// The number of a port, counted from 1.
    PortNumber,
}

/// What is wrong with a text.
#[derive(Clone, Copy, Debug, PartialEq, Eq)]
pub enum RefusalKind {
    /// A byte that begins no lexeme.
    Byte,
    /// A number of 2^64 or more.
    Wide,
    /// A lexeme with which no program continues, or an incomplete text.
    Syntax,
    /// A name that isn't visible.
    Unknown,
    /// A declared name that is visible already.
    Twice,
    /// A visible name that is used as another kind.
    Kind,
    /// A call with another number of arguments than the procedure has parameters.
    Count,
    /// `main` is missing, has a parameter, or isn't the last procedure.
    Main,
    Limit(Quantity),
    /// More bytes than the command reads.
    TooLong,
    /// An item of the input section that is no word.
    Input,
}

/// What is wrong, and where.
#[derive(Clone, Copy, Debug, PartialEq, Eq)]
pub struct Refusal {
    pub kind: RefusalKind,
    pub place: Place,
}

/// Why a text has no answer.
#[derive(Clone, Copy, Debug, PartialEq, Eq)]
pub enum TextFault {
    Refused(Refusal),
    NoMemory,
}

impl From<NoMemory> for TextFault {
    ghost use Rattle.std.specs.Prelude.{◌≡◌};
    ghost use Rattle.src_ast.specs.declared.fault.TextFault.TheVariants.{NoMemory as no_memory};

    ghost from_gives = { λ _ fault. fault ≡ no_memory };

    fn from(_: NoMemory) -> TextFault {
        TextFault::NoMemory
    }
}

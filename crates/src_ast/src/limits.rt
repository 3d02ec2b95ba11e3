//! The limits of the language: what a text or a program has of each thing is at most so many.

/// Bytes in a word.
pub const MOST_NAME_BYTES: usize = 64;

/// Open braces.
pub const MOST_BRACES: u32 = 32;

/// Lexemes in a row, none of which is `;`, `{` or `}`.
pub const MOST_IN_ROW: u32 = 256;

/// Arrays of a program.
pub const MOST_ARRAYS: u64 = 64;

/// Cells of an array.
pub const MOST_ARRAY_CELLS: u64 = 65_536;

/// Cells of all arrays together.
pub const MOST_CELLS: u64 = 1_048_576;

/// Procedures of a program, `main` included.
pub const MOST_PROCEDURES: u64 = 64;

/// Parameters of a procedure.
pub const MOST_PARAMETERS: usize = 8;

/// Parameters and variables of a procedure together.
pub const MOST_LOCALS: usize = 32;

/// Statements of a program, `return` included.
pub const MOST_STATEMENTS: u64 = 2048;

/// The number of a port, counted from 1.
pub const MOST_PORT: u64 = 7;

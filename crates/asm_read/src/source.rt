//! Reading an assembly from a source.

ghost use Rattle.std.specs.Prelude.{◌≡◌, ◌≤◌, ℕ, List, length, IfOk, IfErr};
ghost use Rattle.asm_read.specs.Assembly.{assembly_limit, IsAssembly, IsAssemblyFault};
ghost use Rattle.asm_read.specs.Reads.{GivesAssembly, IsUnread, reading};

use crate::assembly::{AsmRefusal, AssemblyFault, read};
use crate::sections::split;
use std::alloc::Global;
use ws_io::{ReadEnd, Source, read_all};
use ws_isa::Checked;
use ws_words::Words;

/// The most bytes of an assembly with its input section.
const LIMIT: usize = 134_217_728;

/// Why a source gives no assembly.
#[derive(Clone, Copy, Debug, PartialEq, Eq)]
pub enum Unread {
    /// Reading failed.
    Failed,
    /// There are too many bytes.
    TooLong,
    Refused(AsmRefusal),
    NoMemory,
}

/// The image and the input words of the assembly that a source gives, which is read to its end.
pub fn read_source<S: Source>(alloc: Global, source: &mut S) -> Result<(Checked, Words), Unread>
    ensures ok { IfOk result (λ x. GivesAssembly (reading S.left S.faults source.old source.new) x.0 x.1) }
    ensures none { IfErr result (IsUnread (reading S.left S.faults source.old source.new)) }
{
    match read_all(alloc, source, LIMIT) {
        Ok(text) => match read_text(alloc, text.as_slice()) {
            Ok(found) => Ok(found),
            Err(AssemblyFault::Refused(why)) => Err(Unread::Refused(why)),
            Err(AssemblyFault::NoMemory) => Err(Unread::NoMemory),
        },
        Err(ReadEnd::Failed) => Err(Unread::Failed),
        Err(ReadEnd::TooLong) => Err(Unread::TooLong),
        Err(ReadEnd::NoMemory) => Err(Unread::NoMemory),
    }
}

// The image and the input words of a text.
fn read_text(alloc: Global, text: &[u8]) -> Result<(Checked, Words), AssemblyFault>
    requires { length text.now ≤ assembly_limit }
    ensures ok { IfOk result (λ x. IsAssembly text.now x.0 x.1) }
    ensures refused { IfErr result (IsAssemblyFault text.now) }
{
    let (section, input) = split(text);
    read(alloc, section, input)
}

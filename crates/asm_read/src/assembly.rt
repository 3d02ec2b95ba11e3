//! The text of an assembly: its image, and the words that it reads.

ghost use Rattle.std.specs.Prelude.{◌≡◌, ◌≤◌, ℕ, List, length, IfOk, IfErr, Ok};
ghost use Rattle.ws_isa.specs.Image.{Image};
ghost use Rattle.ws_isa.specs.Sound.{Sound};
ghost use Rattle.asm_text.specs.Reading.{read};
ghost use Rattle.asm_read.specs.Sections.{program_of, input_of};
ghost use Rattle.asm_read.specs.Assembly.{assembly_limit, IsAssembly, IsSectionFault, IsAssemblyFault};
ghost use Rattle.asm_read.specs.Assembly.{AnswersAssembly, fault_of_input};

use crate::input::input_words;
use annot_check::{Bad, CheckFault, breaches_break, check_image};
use asm_text::{AsmFault, AsmKind, read_asm};
use src_ast::{Place, TextFault};
use std::alloc::Global;
use ws_isa::Checked;
use ws_words::Words;

/// Why the text of an assembly is refused: its first faulty line, counted from 1, numbers that
/// break a rule of sound images, or the place of the first item of its input that is no word.
#[derive(Clone, Copy, Debug, PartialEq, Eq)]
pub enum AsmRefusal {
    Text(AsmKind, u32),
    Unsound(Bad),
    Input(Place),
}

/// Why the text of an assembly has no image.
#[derive(Clone, Copy, Debug, PartialEq, Eq)]
pub enum AssemblyFault {
    Refused(AsmRefusal),
    NoMemory,
}

// The sound image of an assembly section, or why it has none.
fn checked(alloc: Global, section: &[u8]) -> Result<Checked, AssemblyFault>
    requires { length section.now ≤ assembly_limit }
    ensures ok { IfOk result (λ image. read section.now ≡ Ok image) }
    ensures sound { IfOk result (λ image. Sound image) }
    ensures refused { IfErr result (IsSectionFault section.now) }
{
    breaches_break();
    match read_asm(alloc, section) {
        Ok(image) => match check_image(alloc, image) {
            Ok(image) => Ok(image),
            Err(CheckFault::Refused(bad)) => Err(AssemblyFault::Refused(AsmRefusal::Unsound(bad))),
            Err(CheckFault::NoMemory) => Err(AssemblyFault::NoMemory),
        },
        Err(AsmFault::Refused { kind, line }) => {
            Err(AssemblyFault::Refused(AsmRefusal::Text(kind, line)))
        }
        Err(AsmFault::NoMemory) => Err(AssemblyFault::NoMemory),
    }
}

// What is wrong with an input section, as the fault of an assembly.
fn input_fault(fault: TextFault) -> AssemblyFault
    ensures { result ≡ fault_of_input fault }
{
    match fault {
        TextFault::Refused(refusal) => AssemblyFault::Refused(AsmRefusal::Input(refusal.place)),
        TextFault::NoMemory => AssemblyFault::NoMemory,
    }
}

/// The image of an assembly section and the words of the input section behind it, or why the text with
/// these sections is refused.
pub fn read(alloc: Global, section: &[u8], input: &[u8]) -> Result<(Checked, Words), AssemblyFault>
    requires section { length section.now ≤ assembly_limit }
    requires input { length input.now ≤ assembly_limit }
    ensures ok { IfOk result (λ x. (text : List ℕ) → section.now ≡ program_of text
        → input.now ≡ input_of text → IsAssembly text x.0 x.1) }
    ensures only { (text : List ℕ) (image : Image) (words : List ℕ) → section.now ≡ program_of text
        → input.now ≡ input_of text → IsAssembly text image words → AnswersAssembly result image words }
    ensures refused { IfErr result (λ fault. (text : List ℕ) → section.now ≡ program_of text
        → input.now ≡ input_of text → IsAssemblyFault text fault) }
{
    breaches_break();
    let image = match checked(alloc, section) {
        Ok(image) => image,
        Err(fault) => return Err(fault),
    };
    match input_words(alloc, section, input) {
        Ok(words) => Ok((image, words)),
        Err(fault) => Err(input_fault(fault)),
    }
}

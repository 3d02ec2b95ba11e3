//! Names by their spelling.

ghost use Rattle.std.specs.Prelude.{◌≡◌, ◌+◌, ◌<◌, ◌^◌, ◌++◌, ◌∷◌, [], ℕ, List, OnOk};
ghost use Rattle.src_ast.specs.Meaning.{place_of};

use src_ast::Name;
use std::alloc::Global;
use std::collections::HashMap;
use ws_words::NoMemory;

/// Names that were declared one after another, and the number of each: that of the first name
/// spelled so. `next` is the number of the name that comes next.
#[derive(Drop)]
pub struct NameNumbers<'a> {
    pub numbers: HashMap<&'a [u8], u32>,
    pub next: u32,
}

impl<'a> NameNumbers<'a> {
    ghost use Rattle.seq_run.specs.Tables.{IsTable};

    /// No names, the first of which gets this number.
    pub(crate) fn from(alloc: Global, first: u32) -> NameNumbers<'a>
        ensures { IsTable first [] result }
    {
        NameNumbers {
            numbers: HashMap::new(alloc),
            next: first,
        }
    }

    /// Declares a name.
    pub(crate) fn add(&mut self, name: &'a Name) -> Result<(), NoMemory>
        requires { self.old.next + 1 < 2 ^ 32 }
        ensures table { (first : ℕ) (names : List Name) → IsTable first names self.old →
            OnOk result (IsTable first (names ++ name.now ∷ []) self.new) }
        ensures next { OnOk result (self.new.next ≡ self.old.next + 1) }
    {
        let text = name.text.as_slice();
        if !self.numbers.contains_key(text) {
            self.numbers.insert(text, self.next)?;
        }
        self.next += 1;
        Ok(())
    }

    /// The number of a name, or the next number if there is no such name.
    pub(crate) fn number(&self, name: &Name) -> u32
        ensures { (first : ℕ) (names : List Name) → IsTable first names self.now →
            result ≡ first + place_of names name.now.text }
    {
        let text = name.text.as_slice();
        self.numbers.get(text).copied().unwrap_or(self.next)
    }
}

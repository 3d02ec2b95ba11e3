//! The names that the checker has met, and what they stand for.

ghost use Rattle.std.specs.Prelude.{◌≡◌, ℕ, List, None, Some, true, nat_eq, if◌then◌else◌, OnOk, OnErr};
ghost use Rattle.std.specs.Option.{option_map};
ghost use lib.Pointwise.{pointwise};
ghost use Rattle.src_ast.specs.Rules.{variable, same_kind, same_sort};
ghost use Rattle.src_check.specs.Names.{sort_of, found, seen, passes};

use src_ast::Name;
use std::alloc::Global;
use std::collections::HashMap;
use ws_words::NoMemory;

/// What a name stands for. A procedure has this many parameters.
#[derive(Clone, Copy)]
pub enum Sort {
    Variable,
    Array,
    Procedure(usize),
}

impl Sort {
    /// Whether both are variables, arrays or procedures.
    pub fn is_of_kind(self, other: Sort) -> bool
        ensures { result ≡ same_kind (sort_of self) (sort_of other) }
    {
        matches!(
            (self, other),
            (Sort::Variable, Sort::Variable)
                | (Sort::Array, Sort::Array)
                | (Sort::Procedure(_), Sort::Procedure(_))
        )
    }

    /// Whether both are the same, parameters counted.
    pub fn is_same(self, other: Sort) -> bool
        ensures { result ≡ same_sort (sort_of self) (sort_of other) }
    {
        match (self, other) {
            (Sort::Variable, Sort::Variable) | (Sort::Array, Sort::Array) => true,
            (Sort::Procedure(m), Sort::Procedure(n)) => m == n,
            _ => false,
        }
    }
}

/// Names with what each stands for.
#[derive(Drop)]
pub struct Sorts {
    sorts: HashMap<Vec<u8>, Sort>,
}

impl Sorts {
    /// No names.
    #[tactic(auto, unfolding(crate::specs::Names::found))]
    pub fn new(alloc: Global) -> Sorts
        ensures { (text : List ℕ) → found result text ≡ None }
    {
        Sorts {
            sorts: HashMap::new(alloc),
        }
    }

    /// What a name stands for.
    #[tactic(auto, unfolding(crate::specs::Names::found))]
    pub fn find(&self, text: &[u8]) -> Option<Sort>
        ensures { option_map sort_of result ≡ found self.now text.now }
    {
        self.sorts.get(text).copied()
    }

    /// Whether a name stands for anything.
    pub fn contains(&self, text: &[u8]) -> bool
        ensures { result ≡ passes (λ _. true) (found self.now text.now) }
    {
        self.find(text).is_some()
    }

    /// Puts a name in, or gives it another meaning.
    #[tactic(auto, unfolding(crate::specs::Names::found))]
    pub fn put(&mut self, alloc: Global, name: &Name, sort: Sort) -> Result<(), NoMemory>
        ensures ok { OnOk result ((text : List ℕ) → found self.new text
            ≡ (if pointwise nat_eq name.now.text text then Some (sort_of sort)
            else found self.old text)) }
        ensures err { OnErr result ((text : List ℕ) → found self.new text ≡ found self.old text) }
    {
        let text = Vec::from_slice(alloc, name.text.as_slice())?;
        self.sorts.insert(text, sort)?;
        Ok(())
    }
}

/// The names of arrays and procedures, and those of the variables of the current procedure.
#[derive(Drop)]
pub struct KnownNames {
    pub outer: Sorts,
    pub inner: Sorts,
}

impl KnownNames {
    /// No names.
    pub fn new(alloc: Global) -> KnownNames
        ensures outer { (text : List ℕ) → found result.outer text ≡ None }
        ensures inner { (text : List ℕ) → found result.inner text ≡ None }
    {
        KnownNames {
            outer: Sorts::new(alloc),
            inner: Sorts::new(alloc),
        }
    }

    /// What a name stands for.
    pub fn find(&self, text: &[u8]) -> Option<Sort>
        ensures { option_map sort_of result ≡ seen self.now text.now }
    {
        match self.inner.find(text) {
            Some(sort) => Some(sort),
            None => self.outer.find(text),
        }
    }

    /// Whether a name stands for anything.
    pub fn contains(&self, text: &[u8]) -> bool
        ensures { result ≡ passes (λ _. true) (seen self.now text.now) }
    {
        self.find(text).is_some()
    }

    /// Puts a variable of the procedure in.
    pub fn put_variable(&mut self, alloc: Global, name: &Name) -> Result<(), NoMemory>
        ensures ok { OnOk result ((text : List ℕ) → seen self.new text
            ≡ (if pointwise nat_eq name.now.text text then Some variable else seen self.old text)) }
        ensures outer { self.new.outer ≡ self.old.outer }
    {
        self.inner.put(alloc, name, Sort::Variable)
    }
}

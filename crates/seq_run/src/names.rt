//! The names that are visible.

ghost use Rattle.std.specs.Prelude.{◌≡◌};
ghost use Rattle.src_ast.specs.Meaning.{Scope, var_number, array_number, proc_number};

use crate::table::NameNumbers;
use src_ast::Name;

/// The names of a procedure's variables, from 0, of arrays, from 1, and of procedures, from 0.
#[derive(Drop)]
pub struct NameMaps<'a> {
    pub vars: NameNumbers<'a>,
    pub arrays: NameNumbers<'a>,
    pub procs: NameNumbers<'a>,
}

impl<'a> NameMaps<'a> {
    ghost use Rattle.seq_run.specs.Tables.{AreNames};

    pub(crate) fn var(&self, x: &Name) -> u32
        ensures { (scope : Scope) → AreNames scope self.now → result ≡ var_number scope x.now }
    {
        self.vars.number(x)
    }

    pub(crate) fn array(&self, a: &Name) -> u32
        ensures { (scope : Scope) → AreNames scope self.now → result ≡ array_number scope a.now }
    {
        self.arrays.number(a)
    }

    pub(crate) fn proc(&self, f: &Name) -> u32
        ensures { (scope : Scope) → AreNames scope self.now → result ≡ proc_number scope f.now }
    {
        self.procs.number(f)
    }
}

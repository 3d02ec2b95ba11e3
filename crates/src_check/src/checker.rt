//! The rules of a program, checked in the order of its text.

ghost use Rattle.std.specs.Prelude.{◌≡◌, ◌≤◌, List, [], ◌∷◌, ◌++◌, IfOk, IfErr, OnOk, IsOkUnless};
ghost use Rattle.src_ast.specs.LanguageLimits.{most_arrays, most_cells, most_procedures};
ghost use Rattle.src_ast.specs.View as view;
ghost use Rattle.src_ast.specs.Rules.{rules_of, IsAccepted, IsCheckFault};
ghost use Rattle.src_check.specs.Keeps.{KeepsInMemory};

use crate::accepted::Accepted;
use crate::locals::{parameters, variables};
use crate::names::{KnownNames, Sort, Sorts};
use crate::statements::{body, ending};
use crate::stop::{Stop, require};
use src_ast::{
    Ending, Item, MOST_ARRAY_CELLS, MOST_ARRAYS, MOST_CELLS, MOST_PROCEDURES, Name, Place, Program,
    Quantity, RefusalKind, Stmt, TextFault,
};
use std::alloc::Global;

/// What is known after some arrays and procedures: their names and how many there are, and how
/// many cells and statements.
#[derive(Drop)]
pub struct Checker {
    pub names: KnownNames,
    pub arrays: u64,
    pub procedures: u64,
    pub cells: u64,
    pub statements: u64,
    pub has_main: bool,
    ghost few_arrays: { arrays ≤ most_arrays },
    ghost few_procedures: { procedures ≤ most_procedures },
    ghost few_cells: { cells ≤ most_cells },
}

impl Checker {
    ghost use Rattle.src_ast.specs.Syntax.{Part, Array, Proc};
    ghost use Rattle.src_ast.specs.Rules.{part_rules};
    ghost use Rattle.src_check.specs.After.{IsAfter};

    /// At the start of a program.
    pub fn new(alloc: Global) -> Checker
        ensures { IsAfter result [] }
    {
        Checker {
            names: KnownNames::new(alloc),
            arrays: 0,
            procedures: 0,
            cells: 0,
            statements: 0,
            has_main: false,
        }
    }

    /// An array or a procedure.
    fn item(&mut self, alloc: Global, item: &Item) -> Result<(), Stop>
        ensures rules { (before : List Part) → IsAfter self.old before
            → KeepsInMemory (part_rules before (view.part item.now)) result }
        ensures after { OnOk result ((before : List Part) → IsAfter self.old before
            → IsAfter self.new (before ++ view.part item.now ∷ [])) }
    {
        match item {
            Item::Array {
                name,
                length,
                length_place,
            } => self.array(alloc, name, *length, *length_place),
            Item::Proc {
                name,
                params,
                vars,
                body,
                ending,
            } => self.procedure(alloc, name, params, vars, body, ending),
        }
    }

    /// An array with this many cells.
    fn array(
        &mut self,
        alloc: Global,
        name: &Name,
        length: u64,
        length_place: Place,
    ) -> Result<(), Stop>
        ensures rules { (before : List Part) → IsAfter self.old before
            → KeepsInMemory (part_rules before (Array name.now length length_place)) result }
        ensures after { OnOk result ((before : List Part) → IsAfter self.old before
            → IsAfter self.new (before ++ Array name.now length length_place ∷ [])) }
    {
        let known = self.names.outer.contains(name.text.as_slice());
        require(!known, RefusalKind::Twice, name.place)?;
        require(
            self.arrays < MOST_ARRAYS,
            RefusalKind::Limit(Quantity::Arrays),
            name.place,
        )?;
        require(
            length <= MOST_ARRAY_CELLS,
            RefusalKind::Limit(Quantity::Length),
            length_place,
        )?;
        let cells = self.cells + length;
        require(
            cells <= MOST_CELLS,
            RefusalKind::Limit(Quantity::CellSum),
            length_place,
        )?;
        self.names.outer.put(alloc, name, Sort::Array)?;
        self.arrays += 1;
        self.cells = cells;
        Ok(())
    }

    /// A procedure.
    fn procedure(
        &mut self,
        alloc: Global,
        name: &Name,
        params: &[Name],
        vars: &[Name],
        stmts: &[Stmt],
        last: &Option<Ending>,
    ) -> Result<(), Stop>
        ensures rules { (before : List Part) → IsAfter self.old before
            → KeepsInMemory (part_rules before (Proc (record {
              name = name.now;
              params =
                  params.now;
              vars =
                  vars.now;
              body =
                  view.statements stmts.now;
              ending = view.maybe_last last.now;
            }))) result }
        ensures after { OnOk result ((before : List Part) → IsAfter self.old before
            → IsAfter self.new (before
            ++ Proc (record {
              name = name.now;
              params = params.now;
              vars = vars.now;
              body = view.statements stmts.now;
              ending = view.maybe_last last.now;
            }) ∷ [])) }
    {
        let main = name.is_main();
        require(!self.has_main, RefusalKind::Main, name.place)?;
        let known = self.names.outer.contains(name.text.as_slice());
        require(!known, RefusalKind::Twice, name.place)?;
        require(
            self.procedures < MOST_PROCEDURES,
            RefusalKind::Limit(Quantity::Procs),
            name.place,
        )?;
        self.names.inner = Sorts::new(alloc);
        parameters(alloc, &mut self.names, main, params)?;
        variables(alloc, &mut self.names, params.len(), vars)?;
        let count = body(&self.names, self.statements, stmts)?;
        let count = ending(&self.names, count, last)?;
        let sort = Sort::Procedure(params.len());
        self.names.outer.put(alloc, name, sort)?;
        self.procedures += 1;
        self.statements = count;
        self.has_main = main;
        Ok(())
    }
}

/// The rules of a program.
fn keeps_rules(alloc: Global, program: &Program) -> Result<(), Stop>
    ensures { KeepsInMemory
        (rules_of (view.parts program.now.items.items) program.now.finish)
        result }
{
    let mut checker = Checker::new(alloc);
    for item in &program.items {
        checker.item(alloc, item)?;
    }
    require(checker.has_main, RefusalKind::Main, program.finish)?;
    Ok(())
}

/// The program, if it keeps the rules on names, kinds, counts, order and limits; or the first that
/// it doesn't keep, in the order of the text.
pub fn check(alloc: Global, program: Program) -> Result<Accepted, TextFault>
    ensures ok { IfOk result (λ a. a.program ≡ program) }
    ensures refused { IfErr result
        (λ e. IsCheckFault (view.parts program.items.items) program.finish e) }
    ensures only { IsAccepted (view.parts program.items.items) program.finish
        → IsOkUnless result TextFault.NoMemory }
{
    match keeps_rules(alloc, &program) {
        Ok(()) => Ok(Accepted { program }),
        Err(Stop::Memory) => Err(TextFault::NoMemory),
        Err(Stop::Broken(refusal)) => Err(TextFault::Refused(refusal)),
    }
}

//! The rules on the parameters and variables of a procedure.

ghost use Rattle.std.specs.Prelude.{◌≡◌, ◌<◌, List, [], ◌∷◌, ◌++◌, OnOk};
ghost use Rattle.src_ast.specs.LanguageLimits.{most_parameters, most_locals};
ghost use Rattle.src_ast.specs.Rules as rules;
ghost use Rattle.src_ast.specs.Rules.{Declared, parameter_rules, variable_rules};
ghost use Rattle.src_check.specs.Names.{seen, StandsFor};
ghost use Rattle.src_check.specs.Keeps.{KeepsInMemory};

use crate::names::KnownNames;
use crate::stop::{Stop, require};
use src_ast::{MOST_LOCALS, MOST_PARAMETERS, Name, Quantity, RefusalKind};
use std::alloc::Global;

/// A parameter after this many others, put in with the names.
fn parameter(
    alloc: Global,
    names: &mut KnownNames,
    main: bool,
    before: usize,
    name: &Name,
) -> Result<(), Stop>
    ensures rules { (visible : List Declared) → StandsFor (seen names.old) visible
        → KeepsInMemory (parameter_rules main visible before (name.now ∷ [])) result }
    ensures stands { OnOk result ((visible : List Declared) → StandsFor (seen names.old) visible
        → StandsFor (seen names.new) (rules.variables (name.now ∷ []) ++ visible)) }
    ensures room { OnOk result (before < most_parameters) }
    ensures outer { names.new.outer ≡ names.old.outer }
{
    require(!(main && before == 0), RefusalKind::Main, name.place)?;
    let known = names.contains(name.text.as_slice());
    require(!known, RefusalKind::Twice, name.place)?;
    require(
        before < MOST_PARAMETERS,
        RefusalKind::Limit(Quantity::Params),
        name.place,
    )?;
    names.put_variable(alloc, name)?;
    Ok(())
}

/// The parameters, put in with the names.
pub fn parameters(
    alloc: Global,
    names: &mut KnownNames,
    main: bool,
    params: &[Name],
) -> Result<(), Stop>
    ensures rules { (visible : List Declared) → StandsFor (seen names.old) visible
        → KeepsInMemory (parameter_rules main visible 0 params.now) result }
    ensures stands { OnOk result ((visible : List Declared) → StandsFor (seen names.old) visible
        → StandsFor (seen names.new) (rules.variables params.now ++ visible)) }
    ensures outer { names.new.outer ≡ names.old.outer }
{
    let mut count = 0;
    for name in params {
        parameter(alloc, names, main, count, name)?;
        count += 1;
    }
    Ok(())
}

/// A variable after this many others and parameters, put in with the names.
fn variable(alloc: Global, names: &mut KnownNames, before: usize, name: &Name) -> Result<(), Stop>
    ensures rules { (visible : List Declared) → StandsFor (seen names.old) visible
        → KeepsInMemory (variable_rules visible before (name.now ∷ [])) result }
    ensures stands { OnOk result ((visible : List Declared) → StandsFor (seen names.old) visible
        → StandsFor (seen names.new) (rules.variables (name.now ∷ []) ++ visible)) }
    ensures room { OnOk result (before < most_locals) }
    ensures outer { names.new.outer ≡ names.old.outer }
{
    let taken = names.contains(name.text.as_slice());
    require(!taken, RefusalKind::Twice, name.place)?;
    require(
        before < MOST_LOCALS,
        RefusalKind::Limit(Quantity::Vars),
        name.place,
    )?;
    names.put_variable(alloc, name)?;
    Ok(())
}

/// The variables after this many parameters, put in with the names.
pub fn variables(
    alloc: Global,
    names: &mut KnownNames,
    before: usize,
    vars: &[Name],
) -> Result<(), Stop>
    ensures rules { (visible : List Declared) → StandsFor (seen names.old) visible
        → KeepsInMemory (variable_rules visible before vars.now) result }
    ensures stands { OnOk result ((visible : List Declared) → StandsFor (seen names.old) visible
        → StandsFor (seen names.new) (rules.variables vars.now ++ visible)) }
    ensures outer { names.new.outer ≡ names.old.outer }
{
    let mut count = before;
    for name in vars {
        variable(alloc, names, count, name)?;
        count += 1;
    }
    Ok(())
}

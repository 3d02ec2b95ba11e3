//! Programs that keep the rules.

ghost use Rattle.std.specs.Prelude.{◌≡◌};
ghost use Rattle.src_ast.specs.View as view;
ghost use Rattle.src_ast.specs.Rules.{IsAccepted};

use src_ast::Program;

/// A program that keeps the rules on names, kinds, counts, order and limits.
#[derive(Drop)]
pub struct Accepted {
    pub program: Program,
    pub ghost accepted: { IsAccepted (view.parts program.items.items) program.finish },
}

impl Accepted {
    /// The program.
    pub fn program(&self) -> &Program
        ensures is { result.now ≡ self.now.program }
        ensures accepted { IsAccepted (view.parts result.now.items.items) result.now.finish }
    {
        &self.program
    }
}

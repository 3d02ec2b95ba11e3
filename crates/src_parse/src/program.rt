//! Programs.

ghost use Rattle.std.specs.Prelude.{◌≡◌, ◌<◌, length, IfOk, IfErr, List, []};
ghost use Rattle.src_ast.specs.declared.lexeme.Lexeme.{Lexeme};
ghost use Rattle.src_ast.specs.declared.lexeme.Place.{Place};
ghost use Rattle.src_ast.specs.View as view;
ghost use Rattle.src_ast.specs.Syntax.{Part};
ghost use Rattle.src_ast.specs.Grammar.{Tree};
ghost use Rattle.src_ast.specs.Faults.{IsSyntaxFault, SyntaxAt, AnswersTree, IsTreeAnswer};
ghost use Rattle.src_ast.specs.Once.{ExactlyOne};
ghost use Rattle.src_parse.specs.Gives.{Gives};
ghost use Rattle.src_parse.specs.Programs.{item_at, program_at, place_of};

use crate::keyword::Keyword;
use crate::procedure::{array, procedure};
use crate::stop::Stop;
use crate::token::is_word;
use src_ast::{Item, Items, Lexeme, Lexemes, Place, Program, Refusal, RefusalKind, TextFault};
use std::alloc::Global;

// An array or a procedure.
#[tactic(auto, unfolding(crate::specs::Programs::item_at))]
fn item<'a>(alloc: Global, lexemes: &'a [Lexeme]) -> Result<(Item, &'a [Lexeme]), Stop<'a>>
    ensures read { Gives (λ x. (view.part x.0, x.1.now)) result (item_at lexemes.now) }
    ensures shorter { IfOk result (λ x. length x.1.now < length lexemes.now) }
{
    let Some((first, rest)) = lexemes.split_first() else {
        return Err(Stop::Here(lexemes));
    };
    if is_word(first, Keyword::Proc) {
        return procedure(alloc, rest);
    }
    if is_word(first, Keyword::Array) {
        return array(alloc, rest);
    }
    Err(Stop::Here(lexemes))
}

// The items up to the end.
#[tactic(auto, using(crate::proofs::Loops::items_step, crate::proofs::Loops::items_end, crate::proofs::Loops::items_stop))]
fn items<'a>(alloc: Global, lexemes: &'a [Lexeme]) -> Result<Items, Stop<'a>>
    ensures { Gives (λ x. (view.parts x.items, [])) result (program_at lexemes.now) }
{
    let mut all = Vec::new(alloc);
    let mut rest = lexemes;
    'items: while !rest.is_empty() {
        let (next, following) = item(alloc, rest)?;
        all.push(next)?;
        rest = following;
    }
    Ok(all)
}

// The place of the first of these lexemes, or else of the end.
fn place_at(lexemes: &[Lexeme], finish: Place) -> Place
    ensures { result ≡ place_of lexemes.now finish }
{
    match lexemes.split_first() {
        Some((first, _)) => first.place,
        None => finish,
    }
}

/// The tree that a text's lexemes spell.
///
/// Its recursion goes down expressions and blocks alone. Where the lexemes keep their limits, it is
/// as deep as those let it be: 256 lexemes in a row, and 32 braces. Lists, statements and items are
/// loops.
#[tactic(auto, using(crate::proofs::Laws::parse_found, crate::proofs::Laws::parse_same, crate::proofs::Laws::parse_never, crate::proofs::Laws::parse_fault))]
pub fn parse(alloc: Global, lexemes: &Lexemes) -> Result<Program, TextFault>
    // What is answered is spelled so.
    ensures found { IfOk result (λ p. Tree lexemes.now.items.items (view.parts p.items.items)) }
    ensures finish { IfOk result (λ p. p.finish ≡ lexemes.now.finish) }
    // What is spelled so is answered, unless memory runs out.
    ensures only { (all : List Part) → Tree lexemes.now.items.items all
        → AnswersTree (λ p. view.parts p.items.items) result all }
    // A refusal is at the first lexeme that no program continues, or at the text's end where only a
    // rest is missing.
    ensures refused { IfErr result
        (λ e. IsSyntaxFault lexemes.now.items.items lexemes.now.finish e) }
{
    let finish = lexemes.finish;
    match items(alloc, &lexemes.items) {
        Ok(items) => Ok(Program { items, finish }),
        Err(Stop::Memory) => Err(TextFault::NoMemory),
        Err(Stop::Here(rest)) => {
            let place = place_at(rest, finish);
            Err(TextFault::Refused(Refusal {
                kind: RefusalKind::Syntax,
                place,
            }))
        }
    }
}

/// Lexemes have at most one tree.
#[tactic(auto, using(crate::proofs::Laws::one_tree))]
pub fn one_tree()
    ensures { (ls : List Lexeme) (a b : List Part) → Tree ls a → Tree ls b → a ≡ b }
{}

/// There is at most one place where lexemes are wrong.
#[tactic(auto, using(crate::proofs::Laws::one_place))]
pub fn one_place()
    ensures { (ls : List Lexeme) (finish a b : Place) → SyntaxAt ls finish a → SyntaxAt ls finish b
        → a ≡ b }
{}

/// Lexemes that have a tree are wrong nowhere.
#[tactic(auto, using(crate::proofs::Laws::no_fault_in_a_tree))]
pub fn no_fault_in_a_tree()
    ensures { (ls : List Lexeme) (finish p : Place) (all : List Part) → Tree ls all
        → SyntaxAt ls finish p → ⊥ }
{}

/// Lexemes have exactly one result: a tree, or a place where they are wrong.
pub fn lexemes_are_parsed_once()
    ensures { (ls : List Lexeme) (finish : Place) → ExactlyOne (IsTreeAnswer ls finish) }
{}

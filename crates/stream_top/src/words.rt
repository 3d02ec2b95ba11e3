//! The command-line arguments.

ghost use Rattle.std.specs.Prelude.{◌≡◌, List, map, string_bytes, IfOk, IfSome, IfNone, Err};
ghost use Rattle.clap.specs.Words.{found_of, first_value};
ghost use Rattle.wsc_words.specs.declared.key.Key.TheVariants.{Budget};
ghost use Rattle.wsc_words.specs.declared.line.WordsFault.TheVariants.{Usage};
ghost use Rattle.wsc_words.specs.Lines.{Given, name_of};
ghost use Rattle.wsc_words.specs.Parsers.{Tells};
ghost use Rattle.stream_run.specs.declared.options.Options.{Options as Asked};
ghost use Rattle.stream_top.specs.Lines.{AsksForRun, HasBudget, BudgetIs, NoBudget, options_of};

use clap::ArgMatches;
use std::alloc::Global;
use stream_run::Options;
use ws_io::decimal;
use wsc_words::{Command, WordsFault, parsed};

/// What these command-line arguments ask for, without the program's own name: the options are those of
/// `decouple`, and the budget may be any word.
pub fn read_options(alloc: Global, words: &[String]) -> Result<Options, WordsFault>
    ensures ok { IfOk result (AsksForRun (map string_bytes words.now)) }
    ensures only { IfOk result (λ read. (options : Asked)
        → AsksForRun (map string_bytes words.now) options → options ≡ read) }
    ensures usage { result ≡ Err Usage
        → (options : Asked) → AsksForRun (map string_bytes words.now) options → ⊥ }
{
    match parsed(alloc, Command::Decouple, words) {
        Ok(matches) => match options_from(&matches) {
            Some(options) => Ok(options),
            None => Err(WordsFault::Usage),
        },
        Err(fault) => Err(fault),
    }
}

// The options that were found, where their budget is a word.
fn options_from(matches: &ArgMatches<'_>) -> Option<Options>
    ensures some { (given : List Given) → Tells (found_of matches.now) given
        → IfSome result (λ options. HasBudget given × (options ≡ options_of given)) }
    ensures none { (given : List Given) → Tells (found_of matches.now) given
        → IfNone result (HasBudget given → ⊥) }
{
    let budget = budget(matches)?;
    Some(Options {
        budget,
        memory: matches.get_flag("memory"),
        stats: matches.get_flag("stats"),
    })
}

// The budget that was found, where it is a word: the greatest where none was found.
fn budget(matches: &ArgMatches<'_>) -> Option<u64>
    ensures some { IfSome result (λ n. BudgetIs (first_value (found_of matches.now) (name_of Budget)) n) }
    ensures none { IfNone result (NoBudget (first_value (found_of matches.now) (name_of Budget))) }
{
    match matches.get_str("budget") {
        Some(text) => decimal(text.as_bytes()),
        None => Some(u64::MAX),
    }
}

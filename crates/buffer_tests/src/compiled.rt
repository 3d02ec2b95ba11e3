//! Images of programs.

use src_ast::read_is_written;
use src_check::check;
use src_lex::lex;
use src_parse::parse;
use std::alloc::Global;
use wave_build::compile;
use ws_isa::Checked;
use ws_words::NoMemory;

pub fn compiled(alloc: Global, text: &str) -> Result<Checked, NoMemory> {
    read_is_written();
    if text.len() > 10_000 {
        return Err(NoMemory);
    }
    let Ok(lexemes) = lex(alloc, text.as_bytes()) else {
        return Err(NoMemory);
    };
    let Ok(tree) = parse(alloc, &lexemes) else {
        return Err(NoMemory);
    };
    let Ok(accepted) = check(alloc, tree) else {
        return Err(NoMemory);
    };
    compile(alloc, &accepted)
}

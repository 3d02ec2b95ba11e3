//! Tokens that are put behind others.

use df_core::{Job, Sent, TokenList};

// As far as there is memory.
pub fn pour<J: Job>(from: TokenList<J>, to: &mut TokenList<J>) {
    let mut from = from;
    while let Some(token) = from.pop() {
        let _ = to.push(token);
    }
}

/// Puts what a firing sent behind other tokens, as far as there is memory.
pub fn pour_sent<J: Job>(from: Sent<'_, J>, to: &mut TokenList<J>) {
    let mut from = from;
    while let Some(token) = from.next() {
        let _ = to.push(token);
    }
}

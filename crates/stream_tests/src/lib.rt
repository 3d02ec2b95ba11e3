//! Tests of runs of any length.
//!
//! The tests call `wss` over memory: with each option, with arguments and texts that are refused, with a read
//! that fails, and with each write of a short run failing in turn, a byte at a time, after which a prefix of
//! the answer must have gone out. Where a later write of a run without end fails, the words of each 1,024
//! firings before must have gone out.
#![tactic(auto)]

#[cfg(test)]
mod calls;

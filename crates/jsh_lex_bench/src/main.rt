//! Lexes its standard input as many times as its one word says, and prints what the last time gave:
//! how many tokens, or the fault and its place. `bench/lexis.sh` takes the time.
#![tactic(auto)]

use jsh_lex::{LexError, LexFault, lex};
use std::alloc::Global;
use std::env::args;
use std::io;

/// What a text gave.
#[derive(Clone, Copy, Debug)]
enum Outcome {
    NotLexed,
    TooLong,
    NoMemory,
    Tokens(usize),
    Fault(LexFault, u32),
}

fn lexed(alloc: Global, text: &str) -> Outcome {
    if 0xffff_ffff < text.len() {
        return Outcome::TooLong;
    }
    match lex(alloc, text) {
        Ok(tokens) => Outcome::Tokens(tokens.len()),
        Err(
            LexError::Fault {
                kind,
                place,
                before: _,
            },
        ) => Outcome::Fault(kind, place),
        Err(LexError::NoMemory) => Outcome::NoMemory,
    }
}

/// The number of times that the first word behind the program's name says, or none.
fn rounds(all: std::env::Args) -> u32 {
    let mut named = false;
    for word in all {
        if named {
            return word.as_str().parse::<u32>().unwrap_or(0);
        }
        named = true;
    }
    0
}

fn main(rt: HostRuntime) -> io::Result<()> {
    let rounds = rounds(args(&rt)?);
    let text = io::read_to_string(rt.alloc(), rt.reader())?;
    let mut last = Outcome::NotLexed;
    for _ in 0..rounds {
        last = lexed(rt.alloc(), text.as_str());
    }
    println!(rt; "{last:?}")?;
    Ok(())
}

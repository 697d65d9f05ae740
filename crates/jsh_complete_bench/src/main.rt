//! Lexes its standard input as many times as its first word says, analyzes it each time as many times as
//! its second word says, and prints what the last time gave. `bench/completeness.sh` takes the time.
#![tactic(auto)]

use jsh_complete::{Completion, analyze};
use jsh_lex::{LexError, lex};
use std::alloc::Global;
use std::env::args;
use std::io;

/// What a text gave.
#[derive(Clone, Copy, Debug)]
enum Outcome {
    NotAnalyzed,
    TooLong,
    NoMemory,
    Analyzed(Completion),
}

/// How often something is done: all of it, and the analysis each time.
#[derive(Clone, Copy)]
struct Rounds {
    all: u32,
    each: u32,
}

fn analyzed(alloc: Global, text: &str, times: u32) -> Outcome {
    if 0xffff_ffff < text.len() {
        return Outcome::TooLong;
    }
    let mut last = Outcome::NotAnalyzed;
    match lex(alloc, text) {
        Ok(tokens) => {
            for _ in 0..times {
                last = Outcome::Analyzed(analyze(text, &tokens, None));
            }
        }
        Err(LexError::Fault { kind, before, .. }) => {
            for _ in 0..times {
                last = Outcome::Analyzed(analyze(text, before.as_slice(), Some(kind)));
            }
        }
        Err(LexError::NoMemory) => last = Outcome::NoMemory,
    }
    last
}

/// The numbers that the two words behind the program's name say, or none.
fn rounds_of(words: std::env::Args) -> Rounds {
    let mut found = Rounds { all: 0, each: 0 };
    let mut place = 0u32;
    for word in words {
        let number = word.as_str().parse::<u32>().unwrap_or(0);
        if place == 1 {
            found.all = number;
        }
        if place == 2 {
            found.each = number;
        }
        if place < 3 {
            place += 1;
        }
    }
    found
}

fn main(rt: HostRuntime) -> io::Result<()> {
    let rounds = rounds_of(args(&rt)?);
    let text = io::read_to_string(rt.alloc(), rt.reader())?;
    let mut last = Outcome::NotAnalyzed;
    for _ in 0..rounds.all {
        last = analyzed(rt.alloc(), text.as_str(), rounds.each);
    }
    println!(rt; "{last:?}")?;
    Ok(())
}

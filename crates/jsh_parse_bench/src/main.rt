//! Parses its standard input as many times as its one word says, and prints what the last time gave.
//! `bench/grammar.sh` takes the time.
#![tactic(auto)]

use jsh_decl::parse_source;
use jsh_lex::lex;
use jsh_parse::ParseError;
use std::alloc::Global;
use std::env::args;
use std::io;

/// What a text gave.
#[derive(Clone, Copy, Debug)]
enum Outcome {
    NotParsed,
    TooLong,
    NotLexed,
    Snippet,
    Refused(ParseError),
}

fn parsed(alloc: Global, text: &str) -> Outcome {
    if 0xffff_ffff < text.len() {
        return Outcome::TooLong;
    }
    let Ok(tokens) = lex(alloc, text) else {
        return Outcome::NotLexed;
    };
    match parse_source(alloc, text, &tokens) {
        Ok(_) => Outcome::Snippet,
        Err(refusal) => Outcome::Refused(refusal),
    }
}

/// The number of times that the first word behind the program's name says, or none.
fn rounds(all: std::env::Args) -> u32 {
    let mut named = false;
    for word in all {
        if named {
            return word.as_str().parse::<u32>().unwrap_or(0);
        }
        named = true;
    }
    0
}

fn main(rt: HostRuntime) -> io::Result<()> {
    let rounds = rounds(args(&rt)?);
    let text = io::read_to_string(rt.alloc(), rt.reader())?;
    let mut last = Outcome::NotParsed;
    for _ in 0..rounds {
        last = parsed(rt.alloc(), text.as_str());
    }
    println!(rt; "{last:?}")?;
    Ok(())
}

//! Makes a journal of 50,000 entries, writes or reads it as many times as its words say, `write` or
//! `read` and a number, and prints what the last time gave. `bench/journal.sh` takes the time.
#![tactic(auto)]

use jsh_replay::{JournalError, read_journal, write_journal};
use std::alloc::{AllocError, Global};
use std::env::{Args, args};
use std::io;

/// Behind the Enter, so many times a snippet, a turn and the end of its run.
const SNIPPETS: u32 = 16_666;

/// What the last time gave.
#[derive(Clone, Copy, Debug)]
enum Outcome {
    Nothing,
    NoMemory,
    Bad(u64),
    Entries(usize),
    Bytes(usize),
}

/// What is done, and how often.
#[derive(Clone, Copy)]
struct Job {
    writes: bool,
    rounds: u32,
}

/// The words behind the program's name.
fn job_of(all: Args) -> Job {
    let mut job = Job {
        writes: false,
        rounds: 0,
    };
    for word in all {
        match word.as_str() {
            "write" => job.writes = true,
            other => job.rounds = other.parse::<u32>().unwrap_or(0),
        }
    }
    job
}

/// A snippet by client 1, two steps of a thread, and a Collect.
fn push_snippet(bytes: &mut Vec<u8>, number: u32) -> Result<(), AllocError> {
    bytes.extend_from_slice(b"\x02\x01\x00\x00\x00\x151 + 2 + 3 + 4 + 5 + 6")?;
    bytes.extend_from_slice(b"\x03\x01")?;
    bytes.extend_from_slice(&number.to_be_bytes())?;
    bytes.extend_from_slice(b"\x00\x02\x04\x01")?;
    bytes.extend_from_slice(&number.to_be_bytes())?;
    Ok(())
}

/// The journal.
fn made(alloc: Global) -> Result<Vec<u8>, AllocError> {
    let mut bytes = Vec::new(alloc);
    bytes.extend_from_slice(b"jshj1\n\x01\x00")?;
    for number in 0..SNIPPETS {
        push_snippet(&mut bytes, number)?;
    }
    bytes.extend_from_slice(b"\x0b\x00\xff")?;
    bytes.extend_from_slice(&50_000u32.to_be_bytes())?;
    Ok(bytes)
}

fn failed(error: JournalError) -> Outcome {
    match error {
        JournalError::NoMemory => Outcome::NoMemory,
        JournalError::BadJournal { place } => Outcome::Bad(place),
    }
}

fn read(alloc: Global, bytes: &[u8]) -> Outcome {
    match read_journal(alloc, bytes) {
        Ok(history) => Outcome::Entries(history.len()),
        Err(error) => failed(error),
    }
}

/// The journal is read once, and written so often.
fn written(alloc: Global, bytes: &[u8], rounds: u32) -> Outcome {
    let history = match read_journal(alloc, bytes) {
        Ok(history) => history,
        Err(error) => return failed(error),
    };
    let mut last = Outcome::Nothing;
    for _round in 0..rounds {
        last = match write_journal(alloc, &history) {
            Ok(again) => Outcome::Bytes(again.len()),
            Err(_) => Outcome::NoMemory,
        };
    }
    last
}

fn done(alloc: Global, job: Job) -> Outcome {
    let bytes = match made(alloc) {
        Ok(bytes) => bytes,
        Err(_) => return Outcome::NoMemory,
    };
    if job.writes {
        return written(alloc, &bytes, job.rounds);
    }
    let mut last = Outcome::Nothing;
    for _round in 0..job.rounds {
        last = read(alloc, &bytes);
    }
    last
}

fn main(rt: HostRuntime) -> io::Result<()> {
    let job = job_of(args(&rt)?);
    let last = done(rt.alloc(), job);
    println!(rt; "{last:?}")?;
    Ok(())
}

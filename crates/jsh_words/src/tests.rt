//! Lists of words, and what they mean.
use crate::{Meaning, WordsError, wants_replay, words};
use jsh_tree::SrcText;
use std::alloc::{AllocError, Global};
use std::process::Abort;
use std::test::*;

/// Words with a space between two of them, and what they mean: the numbers, the journal and the startup file of a run with `-` for none,
/// and its scripts; or that of a demo or a replay; or `refused`.
type Row = (&'static str, &'static str);

const RUNS: [Row; 30] = [
    ("--workers 0", "run 0 10000000 - -"),
    ("--workers 16", "run 16 10000000 - -"),
    ("--workers=3", "run 3 10000000 - -"),
    ("--workers 0000000016", "run 16 10000000 - -"),
    ("--budget 1", "run 0 1 - -"),
    ("--budget=1000000000", "run 0 1000000000 - -"),
    ("--journal j", "run 0 10000000 j -"),
    ("--journal=j", "run 0 10000000 j -"),
    ("--journal==j", "run 0 10000000 =j -"),
    ("--journal=a=b", "run 0 10000000 a=b -"),
    ("--startup s", "run 0 10000000 - s"),
    ("--startup=s", "run 0 10000000 - s"),
    ("a", "run 0 10000000 - - a"),
    ("a b.jsh a/c", "run 0 10000000 - - a b.jsh a/c"),
    ("a=b", "run 0 10000000 - - a=b"),
    (
        "a --workers 2 b --journal j --budget=5 --startup s c",
        "run 2 5 j s a b c",
    ),
    ("--", "run 0 10000000 - -"),
    ("-- a b", "run 0 10000000 - - a b"),
    ("a --workers 1 -- b", "run 1 10000000 - - a b"),
    ("--workers=1 --", "run 1 10000000 - -"),
    (
        "--journal j --startup j.out.out",
        "run 0 10000000 j j.out.out",
    ),
    ("a a.out.out", "run 0 10000000 - - a a.out.out"),
    ("\u{e9}", "run 0 10000000 - - \u{e9}"),
    ("workers", "run 0 10000000 - - workers"),
    (
        "a0 a1 a2 a3 a4 a5 a6 a7 a8 a9 b0 b1 b2 b3 b4 b5 b6 b7 b8 b9 c0 c1 c2 c3 c4 c5 c6 c7 c8 c9 d0 d1",
        "run 0 10000000 - - a0 a1 a2 a3 a4 a5 a6 a7 a8 a9 b0 b1 b2 b3 b4 b5 b6 b7 b8 b9 c0 c1 c2 c3 c4 c5 c6 c7 c8 c9 d0 d1",
    ),
    ("--demo 1", "demo 1"),
    ("--demo=8192", "demo 8192"),
    ("--demo 5 --", "demo 5"),
    ("--replay f", "replay f"),
    ("--replay=f --", "replay f"),
];

const REFUSED: [&str; 60] = [
    "--workers 17",
    "a a",
    "--demo 0",
    "--demo 5 a",
    // numbers
    "--workers",
    "--workers=",
    "--workers ",
    "--workers -1",
    "--workers +1",
    "--workers 1a",
    "--workers 00000000001",
    "--workers=0x1",
    "--budget 0",
    "--budget=",
    "--budget 1000000001",
    "--budget 9999999999",
    "--budget +5",
    "--budget --",
    "--demo 8193",
    "--demo",
    "--demo -- 5",
    // options twice, of two forms, and unknown ones
    "--workers 1 --workers 1",
    "--workers=1 --workers 2",
    "--budget 5 --budget=5",
    "--journal a --journal b",
    "--startup a --startup b",
    "--demo 5 --demo 5",
    "--replay f --replay f",
    "--replay f --demo 5",
    "--replay f a",
    "--replay f -- a",
    "--replay f --workers 0",
    "--demo 5 --budget 5",
    "--demo 5 --startup s",
    "--work 1",
    "--Workers 1",
    "--workers 1 --unknown",
    "--script a",
    "--=1",
    "-w 1",
    "-h",
    "-V",
    "--help",
    "--version",
    // files
    "",
    "a ",
    "-",
    "-- -a",
    "-- --",
    "-- --workers",
    "--journal=",
    "--journal -j",
    "--journal=-j",
    "--startup -",
    "--replay -f",
    "--replay=",
    "a a.out",
    "--journal a a",
    "--journal a.out a",
    "--startup a a",
];

fn words_of(alloc: Global, line: &str) -> Result<Vec<String>, AllocError> {
    let mut given = Vec::new(alloc);
    for word in line.split(' ') {
        let word = String::from_str(alloc, word)?;
        given.reserve(1)?;
        given.push_reserved(word);
    }
    Ok(given)
}

fn add_name(told: &mut String, name: &Option<SrcText>) -> Result<(), AllocError> {
    told.push_str(" ")?;
    match name {
        None => told.push_str("-"),
        Some(name) => told.push_str(name.as_str()),
    }
}

fn told(alloc: Global, meaning: &Meaning) -> Result<String, AllocError> {
    match meaning {
        Meaning::Run {
            workers,
            budget,
            journal,
            startup,
            scripts,
        } => {
            let mut told = format!(in alloc; "run {workers} {budget}")?;
            add_name(&mut told, journal)?;
            add_name(&mut told, startup)?;
            for script in scripts.as_slice() {
                told.push_str(" ")?;
                told.push_str(script.as_str())?;
            }
            Ok(told)
        }
        Meaning::Demo { snippets } => format!(in alloc; "demo {snippets}"),
        Meaning::Replay { file } => format!(in alloc; "replay {}", file.as_str()),
    }
}

fn check(rt: &impl Abort, alloc: Global, line: &str, means: &str) -> Result<(), Fail> {
    let given = words_of(alloc, line)?;
    match words(alloc, given.as_slice()) {
        Ok(meaning) => {
            let told = told(alloc, &meaning)?;
            assert_eq!(rt; told.as_str(), means, "what {:?} means", line);
            let is_replay = matches!(&meaning, Meaning::Replay { .. });
            assert_eq!(rt; wants_replay(given.as_slice()), is_replay);
        }
        Err(error) => {
            assert_eq!(rt; error, WordsError::Refused);
            assert_eq!(rt; means, "refused", "what {:?} means", line);
            assert!(rt; !wants_replay(given.as_slice()));
        }
    }
    Ok(())
}

#[test]
fn words_are_accepted_and_refused(rt: HostRuntime) -> Result<(), Fail> {
    let alloc = rt.alloc();
    for (line, means) in RUNS.iter() {
        check(&rt, alloc, line, means)?;
    }
    for line in REFUSED.iter() {
        check(&rt, alloc, line, "refused")?;
    }
    let many =
        "a0 a1 a2 a3 a4 a5 a6 a7 a8 a9 b0 b1 b2 b3 b4 b5 b6 b7 b8 b9 c0 c1 c2 c3 c4 c5 c6 c7 c8 c9 d0 d1 d2";
    check(&rt, alloc, many, "refused")
}

#[test]
fn no_words_are_a_run(rt: HostRuntime) -> Result<(), Fail> {
    let alloc = rt.alloc();
    match words(alloc, &[]) {
        Ok(meaning) => {
            let told = told(alloc, &meaning)?;
            assert_eq!(rt; told.as_str(), "run 0 10000000 - -");
        }
        Err(_) => assert!(rt; false),
    }
    assert!(rt; !wants_replay(&[]));
    Ok(())
}

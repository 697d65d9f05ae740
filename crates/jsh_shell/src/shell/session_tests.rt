// Sessions with slash lines and with budgets: what is written, and what the journal has.
ghost use Rattle.std.specs.Prelude.{◌≡◌, ◌<◌, []};

use super::*;
use jsh_io::{MemoryDesk, MemorySink, MemorySource, OpenGate};
use jsh_snippet::{Act, Entry, Question, Target};
use std::alloc::AllocError;
use std::process::Abort;
use std::test::Fail;

/// What an entry of the first client does.
#[derive(Clone, Copy)]
enum Did {
    Submit(&'static str),
    Turn(u32, u32),
    Collect(u32),
    Expire(u32, u64),
    Stop(u32),
    DropId(u32),
    DropNamed(&'static str),
    List,
    ListAll,
    Vars,
    Help,
    Invalid(&'static str),
    Reset,
    Leave,
}

fn asks(question: &Question, did: Did) -> bool {
    match (question, did) {
        (Question::List, Did::List)
        | (Question::ListAll, Did::ListAll)
        | (Question::Vars, Did::Vars)
        | (Question::Help, Did::Help) => true,
        (Question::Invalid(line), Did::Invalid(text)) => line.as_str() == text,
        _ => false,
    }
}

fn drops(target: &Target, did: Did) -> bool {
    match (target, did) {
        (Target::Id(id), Did::DropId(of)) => *id == of,
        (Target::Named(name), Did::DropNamed(text)) => name.as_str() == text,
        _ => false,
    }
}

fn does(act: &Act, did: Did) -> bool {
    match (act, did) {
        (Act::Submit { source }, Did::Submit(text)) => source.as_str() == text,
        (Act::Turn { thread, steps }, Did::Turn(of, most)) => *thread == of && *steps == most,
        (Act::Collect { run }, Did::Collect(of)) => *run == of,
        (Act::Expire { run, steps }, Did::Expire(of, budget)) => *run == of && *steps == budget,
        (Act::Stop { run }, Did::Stop(of)) => *run == of,
        (Act::Drop { target }, did) => drops(target, did),
        (Act::Ask { question }, did) => asks(question, did),
        (Act::Reset, Did::Reset) | (Act::Leave, Did::Leave) => true,
        _ => false,
    }
}

/// A session of one client over streams that don't fail.
struct Row {
    /// With a space between two of them.
    words: &'static str,
    input: &'static str,
    written: &'static str,
    entries: &'static [Did],
}

const STOPPED: Row = Row {
    words: "--budget 1",
    input: "1 + 2\n/reset\n2 + 2\n/exit\n",
    written: "|  stopped after 1 steps\n|  Resetting state.\n|  stopped after 1 steps\n",
    entries: &[
        Did::Submit("1 + 2"),
        Did::Turn(1, 1),
        Did::Expire(1, 1),
        Did::Reset,
        Did::Submit("2 + 2"),
        Did::Turn(2, 1),
        Did::Expire(2, 1),
        Did::Leave,
    ],
};

const JUST_ENOUGH: Row = Row {
    words: "--budget=2",
    input: "1 + 2",
    written: "$1 ==> 3\n",
    entries: &[
        Did::Submit("1 + 2"),
        Did::Turn(1, 2),
        Did::Expire(1, 2),
        Did::Leave,
    ],
};

const MORE_THAN_ENOUGH: Row = Row {
    words: "--budget 3",
    input: "1 + 2",
    written: "$1 ==> 3\n",
    entries: &[
        Did::Submit("1 + 2"),
        Did::Turn(1, 2),
        Did::Collect(1),
        Did::Leave,
    ],
};

const SLASH_LINES: Row = Row {
    words: "",
    input: "1 + 2\n/list\n/vars\n/drop $1\n/drop 1\n/drop 9\n/drop z\n/list -all\n/vars\n/stop 9\n/foo\n/help\n",
    written: "$1 ==> 3\n   1 : 1 + 2\n|    int $1 = 3\n|  dropped variable $1\n|  snippet 1 is DROPPED\n|  no snippet 9\n|  0 live snippets are named z\n   1 : 1 + 2\n|  no run 9\n|  Invalid command: /foo\n|  /list /vars /methods /types /imports /threads /complete /drop /stop /reset /exit\n",
    entries: &[
        Did::Submit("1 + 2"),
        Did::Turn(1, 2),
        Did::Collect(1),
        Did::List,
        Did::Vars,
        Did::DropNamed("$1"),
        Did::DropId(1),
        Did::DropId(9),
        Did::DropNamed("z"),
        Did::ListAll,
        Did::Vars,
        Did::Stop(9),
        Did::Invalid("/foo"),
        Did::Help,
        Did::Leave,
    ],
};

/// Whether these are the entries of the first client.
fn has_entries(journal: &[Entry], wanted: &[Did]) -> bool {
    let mut left = wanted.iter();
    for entry in journal {
        if entry.client == 1 {
            match left.next() {
                Some(did) if does(&entry.act, *did) => (),
                _ => return false,
            }
        }
    }
    left.next().is_none()
}

fn words_of(alloc: Global, line: &str) -> Result<Vec<String>, AllocError> {
    let mut given = Vec::new(alloc);
    if line.is_empty() {
        return Ok(given);
    }
    for word in line.split(' ') {
        let word = String::from_str(alloc, word)?;
        given.reserve(1)?;
        given.push_reserved(word);
    }
    Ok(given)
}

/// A desk over this input.
fn desk(alloc: Global, input: &[u8]) -> Result<MemoryDesk, AllocError> {
    let source = MemorySource::new(input.to_vec(alloc)?, 4096, Vec::new(alloc));
    let sink = MemorySink::new(Vec::new(alloc), 4096, Vec::new(alloc), Vec::new(alloc));
    Ok(MemoryDesk::new(alloc, source, sink, Vec::new(alloc)))
}

fn has_written(report: &Report<MemorySource, MemorySink>, written: &[u8]) -> bool {
    match report.clients.as_slice() {
        [client] => client.sink.bytes() == written,
        _ => false,
    }
}

fn check<R: Threads + Wait + Sync + Abort>(rt: &R, alloc: Global, row: &Row) -> Result<(), Fail> {
    let words = words_of(alloc, row.words)?;
    let mut desk = desk(alloc, row.input.as_bytes())?;
    let report = run(rt, alloc, words.as_slice(), &mut desk, &OpenGate);
    assert_eq!(rt; report.status, 0, "{}", row.input);
    assert!(rt;
        has_written(&report, row.written.as_bytes()),
        "{}",
        row.input
    );
    assert!(rt;
        has_entries(report.journal.as_slice(), row.entries),
        "{}",
        row.input
    );
    Ok(())
}

#[test]
fn gives_up_at_the_budget(rt: HostRuntime) -> Result<(), Fail> {
    check(&rt, rt.alloc(), &STOPPED)
}

#[test]
fn evaluates_within_the_budget(rt: HostRuntime) -> Result<(), Fail> {
    check(&rt, rt.alloc(), &JUST_ENOUGH)?;
    check(&rt, rt.alloc(), &MORE_THAN_ENOUGH)
}

#[test]
fn serves_slash_lines(rt: HostRuntime) -> Result<(), Fail> {
    check(&rt, rt.alloc(), &SLASH_LINES)
}

/// Words, and the status that they lead to over an empty input.
const WORDS: [(&'static str, u8); 14] = [
    ("", 0),
    ("--", 0),
    ("--workers 0", 0),
    ("--budget=1000000000", 0),
    ("--budget 0", 2),
    ("--budget 1000000001", 2),
    ("--budget 1 --budget 1", 2),
    ("-h", 2),
    // parts that aren't built yet
    ("--workers 1", 2),
    ("--journal j", 2),
    ("--startup s", 2),
    ("a", 2),
    ("--demo 5", 2),
    ("--replay f", 2),
];

fn check_words<R: Threads + Wait + Sync + Abort>(
    rt: &R,
    alloc: Global,
    line: &str,
    status: u8,
) -> Result<(), Fail> {
    let words = words_of(alloc, line)?;
    let mut desk = desk(alloc, b"")?;
    let report = run(rt, alloc, words.as_slice(), &mut desk, &OpenGate);
    assert_eq!(rt; report.status, status, "{}", line);
    let written = if status == 2 { USAGE } else { "" };
    assert!(rt; has_written(&report, written.as_bytes()), "{}", line);
    Ok(())
}

#[test]
fn reads_its_words(rt: HostRuntime) -> Result<(), Fail> {
    for (line, status) in WORDS {
        check_words(&rt, rt.alloc(), line, status)?;
    }
    Ok(())
}

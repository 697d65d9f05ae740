use crate::{Command, command};
use jsh_snippet::{Question, Target};
use std::alloc::Global;
use std::process::Abort;
use std::test::Fail;

/// What a line is to ask for.
#[derive(Clone, Copy, Debug)]
enum Want {
    List,
    ListAll,
    Vars,
    Methods,
    Types,
    Imports,
    Threads,
    Help,
    Id(u32),
    Name(&'static str),
    Run(u32),
    Reset,
    Exit,
    Invalid(&'static str),
}

fn is_question(question: &Question, want: Want) -> bool {
    match (question, want) {
        (Question::List, Want::List) => true,
        (Question::ListAll, Want::ListAll) => true,
        (Question::Vars, Want::Vars) => true,
        (Question::Methods, Want::Methods) => true,
        (Question::Types, Want::Types) => true,
        (Question::Imports, Want::Imports) => true,
        (Question::Threads, Want::Threads) => true,
        (Question::Help, Want::Help) => true,
        (Question::Invalid(line), Want::Invalid(text)) => line.as_str() == text,
        _ => false,
    }
}

fn is_command(found: &Command, want: Want) -> bool {
    match (found, want) {
        (Command::Drop(Target::Id(id)), Want::Id(number)) => *id == number,
        (Command::Drop(Target::Named(name)), Want::Name(text)) => name.as_str() == text,
        (Command::Stop(run), Want::Run(number)) => *run == number,
        (Command::Reset, Want::Reset) => true,
        (Command::Exit, Want::Exit) => true,
        (Command::Ask(question), want) => is_question(question, want),
        _ => false,
    }
}

fn check(rt: &impl Abort, alloc: Global, line: &str, want: Want) -> Result<(), Fail> {
    let found = command(alloc, line)?;
    assert!(rt; is_command(&found, want), "{line:?}");
    Ok(())
}

fn check_all(rt: &impl Abort, alloc: Global, rows: &[(&'static str, Want)]) -> Result<(), Fail> {
    for row in rows {
        check(rt, alloc, row.0, row.1)?;
    }
    Ok(())
}

const QUESTIONS: [(&str, Want); 20] = [
    ("/list", Want::List),
    ("/list -all", Want::ListAll),
    ("/list\t -all", Want::ListAll),
    ("/vars", Want::Vars),
    ("/methods", Want::Methods),
    ("/types", Want::Types),
    ("/imports", Want::Imports),
    ("/threads", Want::Threads),
    ("/help", Want::Help),
    ("/?", Want::Help),
    (" \t/vars \t", Want::Vars),
    ("/list -foo", Want::Invalid("/list -foo")),
    ("/list-all", Want::Invalid("/list-all")),
    ("/list - all", Want::Invalid("/list - all")),
    ("/LIST", Want::Invalid("/LIST")),
    ("/lis", Want::Invalid("/lis")),
    ("/vars x", Want::Invalid("/vars x")),
    ("/? x", Want::Invalid("/? x")),
    ("/foo", Want::Invalid("/foo")),
    ("  /foo bar ", Want::Invalid("/foo bar")),
];

#[test]
fn questions_are_known(rt: HostRuntime) -> Result<(), Fail> {
    check_all(&rt, rt.alloc(), &QUESTIONS)
}

const ACTS: [(&str, Want); 30] = [
    ("/drop 1", Want::Id(1)),
    ("/drop 0", Want::Id(0)),
    ("/drop \t9 ", Want::Id(9)),
    ("/drop 4294967295", Want::Id(4294967295)),
    ("/drop 4294967296", Want::Invalid("/drop 4294967296")),
    ("/drop 99999999999", Want::Invalid("/drop 99999999999")),
    ("/drop 01", Want::Invalid("/drop 01")),
    ("/drop +1", Want::Invalid("/drop +1")),
    ("/drop -1", Want::Invalid("/drop -1")),
    ("/drop 1x", Want::Invalid("/drop 1x")),
    ("/drop $1", Want::Name("$1")),
    ("/drop x", Want::Name("x")),
    ("/drop \u{E9}t\u{E9}", Want::Name("\u{E9}t\u{E9}")),
    ("/drop if", Want::Invalid("/drop if")),
    ("/drop _", Want::Invalid("/drop _")),
    ("/drop f()", Want::Invalid("/drop f()")),
    ("/drop", Want::Invalid("/drop")),
    ("/drop 1 2", Want::Invalid("/drop 1 2")),
    ("/stop 9", Want::Run(9)),
    ("/stop 4294967296", Want::Invalid("/stop 4294967296")),
    ("/stop x", Want::Invalid("/stop x")),
    ("/stop", Want::Invalid("/stop")),
    ("/reset", Want::Reset),
    ("/reset 1", Want::Invalid("/reset 1")),
    ("/exit", Want::Exit),
    ("/exit\t", Want::Exit),
    ("/exit 0", Want::Invalid("/exit 0")),
    ("/complete x", Want::Invalid("/complete x")),
    ("", Want::Invalid("")),
    (" x ", Want::Invalid("x")),
];

#[test]
fn acts_are_known(rt: HostRuntime) -> Result<(), Fail> {
    check_all(&rt, rt.alloc(), &ACTS)
}

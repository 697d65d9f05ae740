//! Each act with its fields at their least and greatest values, both ways.
use super::with_header;
use crate::{read_journal, write_journal};
use jsh_snippet::{Act, Entry, Question, Target};
use std::alloc::Global;
use std::process::Abort;
use std::test::Fail;

/// An act, as the tests see it.
#[derive(Clone, Copy, Debug)]
enum Seen {
    Enter,
    Submit(&'static str),
    Turn(u32, u32),
    Collect(u32),
    Expire(u32, u64),
    Stop(u32),
    DropId(u32),
    DropName(&'static str),
    /// A question by its place among those without a text.
    Ask(u8),
    Invalid(&'static str),
    Reset,
    Leave,
    Close,
}

/// The bytes of an entry by client 0, and what is read from them.
#[derive(Clone, Copy)]
struct Row(&'static [u8], Seen);

fn is_asked(question: &Question, seen: Seen) -> bool {
    match (question, seen) {
        (Question::List, Seen::Ask(0)) => true,
        (Question::ListAll, Seen::Ask(1)) => true,
        (Question::Vars, Seen::Ask(2)) => true,
        (Question::Methods, Seen::Ask(3)) => true,
        (Question::Types, Seen::Ask(4)) => true,
        (Question::Imports, Seen::Ask(5)) => true,
        (Question::Threads, Seen::Ask(6)) => true,
        (Question::Help, Seen::Ask(7)) => true,
        (Question::Invalid(line), Seen::Invalid(text)) => line.as_str() == text,
        _ => false,
    }
}

fn is_seen(act: &Act, seen: Seen) -> bool {
    match (act, seen) {
        (Act::Enter, Seen::Enter) => true,
        (Act::Submit { source }, Seen::Submit(text)) => source.as_str() == text,
        (Act::Turn { thread, steps }, Seen::Turn(number, most)) => {
            *thread == number && *steps == most
        }
        (Act::Collect { run }, Seen::Collect(number)) => *run == number,
        (Act::Expire { run, steps }, Seen::Expire(number, spent)) => {
            *run == number && *steps == spent
        }
        (Act::Stop { run }, Seen::Stop(number)) => *run == number,
        (
            Act::Drop {
                target: Target::Id(id),
            },
            Seen::DropId(number),
        ) => *id == number,
        (
            Act::Drop {
                target: Target::Named(name),
            },
            Seen::DropName(text),
        ) => name.as_str() == text,
        (Act::Ask { question }, seen) => is_asked(question, seen),
        (Act::Reset, Seen::Reset) => true,
        (Act::Leave, Seen::Leave) => true,
        (Act::Close, Seen::Close) => true,
        _ => false,
    }
}

fn is_alone(history: &[Entry], seen: Seen) -> bool {
    match history {
        [entry] => entry.client == 0 && is_seen(&entry.act, seen),
        _ => false,
    }
}

fn check(rt: &impl Abort, alloc: Global, row: Row) -> Result<(), Fail> {
    let mut bytes = with_header(alloc, row.0)?;
    bytes.extend_from_slice(&[255, 0, 0, 0, 1])?;
    let history = read_journal(alloc, &bytes).ok().ok_or("no journal")?;
    assert!(rt; is_alone(&history, row.1), "{:?}", row.1);
    let again = write_journal(alloc, &history)?;
    assert_eq!(rt; again.as_slice(), bytes.as_slice(), "{:?}", row.1);
    Ok(())
}

fn check_all(rt: &impl Abort, alloc: Global, rows: &[Row]) -> Result<(), Fail> {
    for row in rows {
        check(rt, alloc, *row)?;
    }
    Ok(())
}

#[test]
fn acts_with_numbers(rt: HostRuntime) -> Result<(), Fail> {
    let rows = [
        Row(b"\x01\x00", Seen::Enter),
        Row(b"\x03\x00\x00\x00\x00\x00\x00\x01", Seen::Turn(0, 1)),
        Row(
            b"\x03\x00\xff\xff\xff\xff\x01\x00",
            Seen::Turn(0xffff_ffff, 256),
        ),
        Row(b"\x04\x00\x00\x00\x00\x00", Seen::Collect(0)),
        Row(b"\x04\x00\x01\x02\x03\x04", Seen::Collect(0x0102_0304)),
        Row(b"\x04\x00\xff\xff\xff\xff", Seen::Collect(0xffff_ffff)),
        Row(
            b"\x05\x00\x00\x00\x00\x00\x00\x00\x00\x00\x00\x00\x00\x00",
            Seen::Expire(0, 0),
        ),
        Row(
            b"\x05\x00\x00\x00\x00\x07\x01\x02\x03\x04\x05\x06\x07\x08",
            Seen::Expire(7, 0x0102_0304_0506_0708),
        ),
        Row(
            b"\x05\x00\xff\xff\xff\xff\xff\xff\xff\xff\xff\xff\xff\xff",
            Seen::Expire(0xffff_ffff, 0xffff_ffff_ffff_ffff),
        ),
        Row(b"\x06\x00\x00\x00\x00\x00", Seen::Stop(0)),
        Row(b"\x06\x00\xff\xff\xff\xff", Seen::Stop(0xffff_ffff)),
        Row(b"\x07\x00\x00\x00\x00\x00\x00", Seen::DropId(0)),
        Row(b"\x07\x00\x00\xff\xff\xff\xff", Seen::DropId(0xffff_ffff)),
        Row(b"\x09\x00", Seen::Reset),
        Row(b"\x0a\x00", Seen::Leave),
        Row(b"\x0b\x00", Seen::Close),
    ];
    check_all(&rt, rt.alloc(), &rows)
}

#[test]
fn acts_with_texts(rt: HostRuntime) -> Result<(), Fail> {
    let rows = [
        Row(b"\x02\x00\x00\x00\x00\x00", Seen::Submit("")),
        Row(
            b"\x02\x00\x00\x00\x00\x05\x31\x20+\x202",
            Seen::Submit("1 + 2"),
        ),
        Row(
            b"\x02\x00\x00\x00\x00\x04\xf0\x9f\x98\x80",
            Seen::Submit("\u{1f600}"),
        ),
        Row(b"\x07\x00\x01\x00\x00\x00\x01x", Seen::DropName("x")),
        Row(
            b"\x07\x00\x01\x00\x00\x00\x02\xc3\xa4",
            Seen::DropName("\u{e4}"),
        ),
        Row(b"\x08\x00\x09\x00\x00\x00\x00", Seen::Invalid("")),
        Row(b"\x08\x00\x09\x00\x00\x00\x03/no", Seen::Invalid("/no")),
    ];
    check_all(&rt, rt.alloc(), &rows)
}

#[test]
fn questions(rt: HostRuntime) -> Result<(), Fail> {
    let rows = [
        Row(b"\x08\x00\x00", Seen::Ask(0)),
        Row(b"\x08\x00\x01", Seen::Ask(1)),
        Row(b"\x08\x00\x02", Seen::Ask(2)),
        Row(b"\x08\x00\x03", Seen::Ask(3)),
        Row(b"\x08\x00\x04", Seen::Ask(4)),
        Row(b"\x08\x00\x05", Seen::Ask(5)),
        Row(b"\x08\x00\x06", Seen::Ask(6)),
        Row(b"\x08\x00\x07", Seen::Ask(7)),
    ];
    check_all(&rt, rt.alloc(), &rows)
}

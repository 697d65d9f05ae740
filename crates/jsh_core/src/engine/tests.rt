mod rows;

use super::*;
use jsh_snippet::Act;
use rows::{Doing, Row, Wanted, after, crowded_after};
use std::test::Fail;

const LISTED: [Row; 8] = [
    Row(0, Doing::Submit("1 + 2"), Wanted::Submitted(1, Some(1))),
    Row(0, Doing::Vars, Wanted::Lines("|    int $1 = 0\n")),
    Row(0, Doing::Threads, Wanted::Lines("|    1 client 0 READY\n")),
    Row(0, Doing::Turn(1, 256), Wanted::Turned(2)),
    Row(0, Doing::Submit("3 -\n4"), Wanted::Submitted(2, Some(2))),
    Row(
        0,
        Doing::List,
        Wanted::Lines("   1 : 1 + 2\n   2 : 3 -\n       4\n"),
    ),
    Row(
        0,
        Doing::Vars,
        Wanted::Lines("|    int $1 = 3\n|    int $2 = 0\n"),
    ),
    Row(
        0,
        Doing::Invalid("/foo"),
        Wanted::Lines("|  Invalid command: /foo\n"),
    ),
];

const DROPPED: [Row; 10] = [
    Row(0, Doing::Submit("1"), Wanted::Submitted(1, Some(1))),
    Row(0, Doing::Submit("2"), Wanted::Submitted(2, Some(2))),
    Row(0, Doing::Submit("3 +"), Wanted::Submitted(3, None)),
    Row(0, Doing::DropId(1), Wanted::Dropped(1)),
    Row(0, Doing::DropId(1), Wanted::DroppedBefore(1)),
    Row(0, Doing::DropId(3), Wanted::RejectedBefore(3)),
    Row(0, Doing::DropId(4), Wanted::NoSuchSnippet(4, 3)),
    Row(0, Doing::DropName("$2"), Wanted::Dropped(2)),
    Row(0, Doing::DropName("$2"), Wanted::NoSuchName(0)),
    Row(0, Doing::Vars, Wanted::Lines("")),
];

const STOPPED: [Row; 10] = [
    Row(0, Doing::Enter, Wanted::Entered(1)),
    Row(0, Doing::Submit("1 + 2"), Wanted::Submitted(1, Some(1))),
    Row(1, Doing::Collect(1), Wanted::NotOwner(0)),
    Row(1, Doing::Expire(1, 7), Wanted::NotOwner(0)),
    Row(1, Doing::Stop(1), Wanted::StopDone(1)),
    Row(1, Doing::Stop(2), Wanted::NoSuchRun(2)),
    Row(0, Doing::Turn(1, 1), Wanted::Turned(0)),
    Row(0, Doing::Collect(1), Wanted::Stopped(1)),
    Row(0, Doing::Collect(1), Wanted::NoSuchRun(1)),
    Row(0, Doing::Stop(1), Wanted::NoSuchRun(1)),
];

const EXPIRED: [Row; 8] = [
    Row(0, Doing::Submit("1 + 2"), Wanted::Submitted(1, Some(1))),
    Row(0, Doing::Turn(1, 1), Wanted::Turned(1)),
    Row(0, Doing::Collect(1), Wanted::Running(1)),
    Row(0, Doing::Expire(1, 77), Wanted::Spent(77)),
    Row(0, Doing::Submit("1 + 2"), Wanted::Submitted(2, Some(2))),
    Row(0, Doing::Turn(2, 256), Wanted::Turned(2)),
    Row(0, Doing::Expire(2, 77), Wanted::Value("3")),
    Row(0, Doing::Expire(2, 77), Wanted::NoSuchRun(2)),
];

const LEFT: [Row; 9] = [
    Row(0, Doing::Enter, Wanted::Entered(1)),
    Row(1, Doing::Submit("1 + 2"), Wanted::Submitted(1, Some(1))),
    Row(0, Doing::Submit("3"), Wanted::Submitted(2, Some(2))),
    Row(1, Doing::Leave, Wanted::Left),
    Row(0, Doing::Threads, Wanted::Lines("|    2 client 0 READY\n")),
    Row(0, Doing::Collect(1), Wanted::NoSuchRun(1)),
    Row(0, Doing::DropId(1), Wanted::Dropped(1)),
    Row(0, Doing::Turn(2, 2), Wanted::Turned(2)),
    Row(0, Doing::Collect(2), Wanted::Value("3")),
];

const RESET: [Row; 9] = [
    Row(0, Doing::Submit("1 + 2"), Wanted::Submitted(1, Some(1))),
    Row(0, Doing::Submit("3 +"), Wanted::Submitted(2, None)),
    Row(0, Doing::Reset, Wanted::ResetDone(2)),
    Row(0, Doing::Collect(1), Wanted::NoSuchRun(1)),
    Row(0, Doing::Turn(1, 1), Wanted::Turned(0)),
    Row(0, Doing::Submit("4 - 5"), Wanted::Submitted(1, Some(2))),
    Row(0, Doing::Threads, Wanted::Lines("|    2 client 0 READY\n")),
    Row(0, Doing::Turn(2, 2), Wanted::Turned(2)),
    Row(0, Doing::Collect(2), Wanted::Value("-1")),
];

const BARRED: [Row; 18] = [
    Row(0, Doing::Enter, Wanted::Entered(1)),
    Row(2, Doing::List, Wanted::Barred),
    Row(2, Doing::Leave, Wanted::Barred),
    Row(0, Doing::Turn(1, 0), Wanted::Barred),
    Row(0, Doing::Turn(1, 257), Wanted::Barred),
    Row(0, Doing::Turn(1, 256), Wanted::Turned(0)),
    Row(0, Doing::DropName("int"), Wanted::Barred),
    Row(0, Doing::DropName("x"), Wanted::NoSuchName(0)),
    Row(0, Doing::Complete("x"), Wanted::Barred),
    Row(1, Doing::Close, Wanted::Barred),
    Row(1, Doing::Leave, Wanted::Left),
    Row(1, Doing::Leave, Wanted::Barred),
    Row(0, Doing::Close, Wanted::Closed),
    Row(0, Doing::Close, Wanted::Barred),
    Row(0, Doing::Leave, Wanted::Barred),
    Row(0, Doing::Enter, Wanted::Barred),
    Row(0, Doing::Submit("1"), Wanted::Barred),
    Row(0, Doing::List, Wanted::Barred),
];

/// Where 62 clients are numbered.
const LAST_CLIENTS: [Row; 5] = [
    Row(0, Doing::Enter, Wanted::Entered(62)),
    Row(0, Doing::Enter, Wanted::Entered(63)),
    Row(0, Doing::Enter, Wanted::LimitClients(64)),
    Row(63, Doing::Leave, Wanted::Left),
    Row(0, Doing::Enter, Wanted::LimitClients(64)),
];

/// Where 254 threads are alive.
const LAST_THREADS: [Row; 9] = [
    Row(0, Doing::Submit("1"), Wanted::Submitted(255, Some(255))),
    Row(0, Doing::Submit("1"), Wanted::Submitted(256, Some(256))),
    Row(0, Doing::Submit("1"), Wanted::LimitThreads(256)),
    Row(0, Doing::Submit("1 +"), Wanted::Submitted(257, None)),
    Row(0, Doing::Stop(7), Wanted::StopDone(7)),
    Row(0, Doing::Submit("1"), Wanted::Submitted(258, Some(257))),
    Row(0, Doing::Submit("1"), Wanted::LimitThreads(256)),
    Row(0, Doing::Turn(256, 2), Wanted::Turned(2)),
    Row(0, Doing::Submit("1"), Wanted::Submitted(259, Some(258))),
];

#[test]
fn an_engine_opens_with_client_0_alone(rt: HostRuntime) -> Result<(), Fail> {
    let core = Core::new(rt.alloc())?;
    assert_eq!(rt;
        (core.len(), core.numbers(), core.source_bytes()),
        (0, 1, 0)
    );
    assert_eq!(rt; core.closed_at(), None);
    assert_eq!(rt; core.run(1), None);
    assert_eq!(rt; core.states().len(), 0);
    assert!(rt; core.entry(0).is_none());
    assert_eq!(rt; core.into_history().len(), 0);
    Ok(())
}

#[test]
fn snippets_are_listed(rt: HostRuntime) -> Result<(), Fail> {
    let core = after(rt.alloc(), &LISTED)?;
    assert_eq!(rt;
        (core.len(), core.numbers(), core.source_bytes()),
        (8, 1, 14)
    );
    assert_eq!(rt; core.states().len(), 2);
    assert_eq!(rt;
        core.run(2),
        Some(RunView {
            owner: 0,
            main: 2,
            over: false,
        })
    );
    Ok(())
}

#[test]
fn snippets_are_dropped(rt: HostRuntime) -> Result<(), Fail> {
    after(rt.alloc(), &DROPPED)?;
    Ok(())
}

#[test]
fn another_client_stops_a_run(rt: HostRuntime) -> Result<(), Fail> {
    after(rt.alloc(), &STOPPED)?;
    Ok(())
}

#[test]
fn runs_expire(rt: HostRuntime) -> Result<(), Fail> {
    after(rt.alloc(), &EXPIRED)?;
    Ok(())
}

#[test]
fn a_client_leaves_alone(rt: HostRuntime) -> Result<(), Fail> {
    let core = after(rt.alloc(), &LEFT)?;
    assert!(rt;
        matches!(
            core.entry(3),
            Some(Entry {
                client: 1,
                act: Act::Leave,
            })
        )
    );
    assert_eq!(rt; core.into_history().len(), 9);
    Ok(())
}

#[test]
fn ids_begin_again_at_a_reset(rt: HostRuntime) -> Result<(), Fail> {
    after(rt.alloc(), &RESET)?;
    Ok(())
}

#[test]
fn nothing_follows_a_close(rt: HostRuntime) -> Result<(), Fail> {
    let core = after(rt.alloc(), &BARRED)?;
    assert_eq!(rt; core.len(), 5);
    assert_eq!(rt; core.closed_at(), Some(4));
    Ok(())
}

#[test]
fn clients_have_a_limit(rt: HostRuntime) -> Result<(), Fail> {
    let core = crowded_after(rt.alloc(), 61, 0, &LAST_CLIENTS)?;
    assert_eq!(rt; core.numbers(), 64);
    Ok(())
}

#[test]
fn alive_threads_have_a_limit(rt: HostRuntime) -> Result<(), Fail> {
    let core = crowded_after(rt.alloc(), 0, 254, &LAST_THREADS)?;
    assert_eq!(rt; core.states().len(), 258);
    Ok(())
}

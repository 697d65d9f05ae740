// Expected values are from the format's table and its example in `docs/journal.md`. The places in damaged journals are
// those of a reader of the tests' own.
mod damaged;
mod limits;
mod refused;
mod written;

use crate::{JournalError, read_journal, replay, write_journal};
use jsh_snippet::{Collected, Entry, Outcome, Reply, ReplyBody};
use std::alloc::Global;
use std::process::Abort;
use std::test::Fail;

/// Client 0 enters client 1, which evaluates `1 + 2` and leaves, and client 0 closes.
const ONE_SUM: [u8; 42] = [
    0x6a, 0x73, 0x68, 0x6a, 0x31, 0x0a, 0x01, 0x00, 0x02, 0x01, 0x00, 0x00, 0x00, 0x05, 0x31, 0x20,
    0x2b, 0x20, 0x32, 0x03, 0x01, 0x00, 0x00, 0x00, 0x01, 0x00, 0x02, 0x04, 0x01, 0x00, 0x00, 0x00,
    0x01, 0x0a, 0x01, 0x0b, 0x00, 0xff, 0x00, 0x00, 0x00, 0x06,
];

/// What reading came to.
#[derive(Clone, Copy, Debug, PartialEq, Eq)]
enum Read {
    /// So many entries.
    Entries(usize),
    Bad(u64),
    NoMemory,
}

fn error_of(error: JournalError) -> Read {
    match error {
        JournalError::NoMemory => Read::NoMemory,
        JournalError::BadJournal { place } => Read::Bad(place),
    }
}

fn reading_of(alloc: Global, bytes: &[u8]) -> Read {
    match read_journal(alloc, bytes) {
        Ok(history) => Read::Entries(history.len()),
        Err(error) => error_of(error),
    }
}

/// The header and these bytes.
fn with_header(alloc: Global, items: &[u8]) -> Result<Vec<u8>, Fail> {
    let mut bytes = Vec::new(alloc);
    bytes.extend_from_slice(b"jshj1\n")?;
    bytes.extend_from_slice(items)?;
    Ok(bytes)
}

fn is_three(outcome: &Outcome) -> bool {
    match outcome {
        Outcome::Value(text) => text.as_slice() == [51].as_slice(),
        _ => false,
    }
}

/// Whether this is the reply to the entry of the sum's journal at this place.
fn is_reply(place: usize, reply: &Reply) -> bool {
    match (place, &reply.body) {
        (0, ReplyBody::Entered { number }) => *number == 1,
        (1, ReplyBody::Submitted(made)) => made.id == 1 && made.run == Some(1),
        (2, ReplyBody::Turned { steps }) => *steps == 2,
        (
            3,
            ReplyBody::Collected(
                Collected::Over {
                    id,
                    name: _,
                    outcome,
                },
            ),
        ) => *id == 1 && is_three(outcome),
        (4, ReplyBody::Left) => true,
        (5, ReplyBody::Closed) => true,
        _ => false,
    }
}

/// Whether the entry of the sum's journal at this place is this client's.
fn is_entry(place: usize, entry: &Entry) -> bool {
    let clients = [0, 1, 1, 1, 1, 0];
    place < 6 && entry.client == clients[place]
}

#[test]
fn the_journal_of_a_sum_is_read(rt: HostRuntime) -> Result<(), Fail> {
    let history = read_journal(rt.alloc(), &ONE_SUM).ok().ok_or("no journal")?;
    assert_eq!(rt; history.len(), 6);
    for (place, entry) in history.iter().enumerate() {
        assert!(rt; is_entry(place, entry), "{place}");
    }
    Ok(())
}

#[test]
fn the_journal_of_a_sum_is_written(rt: HostRuntime) -> Result<(), Fail> {
    let history = read_journal(rt.alloc(), &ONE_SUM).ok().ok_or("no journal")?;
    let bytes = write_journal(rt.alloc(), &history)?;
    assert_eq!(rt; bytes.as_slice(), ONE_SUM.as_slice());
    Ok(())
}

#[test]
fn a_sum_is_replayed(rt: HostRuntime) -> Result<(), Fail> {
    let replies = replay(rt.alloc(), &ONE_SUM).ok().ok_or("no replies")?;
    assert_eq!(rt; replies.len(), 6);
    for (place, reply) in replies.iter().enumerate() {
        assert!(rt; is_reply(place, reply), "{place}");
    }
    Ok(())
}

/// A Turn that asks for more steps than it does is replayed too, and counts those that it does.
#[test]
fn a_sum_with_256_steps_is_replayed(rt: HostRuntime) -> Result<(), Fail> {
    let mut bytes = ONE_SUM;
    bytes[25] = 1;
    bytes[26] = 0;
    let replies = replay(rt.alloc(), &bytes).ok().ok_or("no replies")?;
    assert_eq!(rt; replies.len(), 6);
    for (place, reply) in replies.iter().enumerate() {
        assert!(rt; is_reply(place, reply), "{place}");
    }
    Ok(())
}

#[test]
fn a_replay_refuses_as_reading_does(rt: HostRuntime) {
    let found = match replay(rt.alloc(), &ONE_SUM[..41]) {
        Ok(replies) => Read::Entries(replies.len()),
        Err(error) => error_of(error),
    };
    assert_eq!(rt; found, Read::Bad(37));
}

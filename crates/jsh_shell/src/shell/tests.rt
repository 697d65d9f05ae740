// Inputs over streams in memory, with the whole journal compared, and the faults and limits.
ghost use Rattle.std.specs.Prelude.{◌≡◌, ◌<◌, []};

use super::*;
use jsh_io::{MemoryDesk, MemorySink, MemorySource, OpenGate};
use jsh_snippet::{Act, Entry};
use std::alloc::AllocError;
use std::test::Fail;

/// What an entry does.
enum Did {
    Enter,
    Submit(&'static str),
    Turn(u32, u32),
    Collect(u32),
    Leave,
    Close,
}

fn is_wanted(entry: Option<&Entry>, wanted: &(u32, Did)) -> bool {
    let Some(entry) = entry else {
        return false;
    };
    let same = match (&entry.act, &wanted.1) {
        (Act::Enter, Did::Enter) | (Act::Leave, Did::Leave) | (Act::Close, Did::Close) => true,
        (Act::Submit { source }, Did::Submit(text)) => source.as_str() == *text,
        (Act::Turn { thread, steps }, Did::Turn(of, most)) => thread == of && steps == most,
        (Act::Collect { run }, Did::Collect(of)) => run == of,
        _ => false,
    };
    same && entry.client == wanted.0
}

/// An input over streams that don't fail.
struct Row {
    input: &'static str,
    written: &'static str,
    journal: &'static [(u32, Did)],
}

const NOTHING: [(u32, Did); 3] = [(0, Did::Enter), (1, Did::Leave), (0, Did::Close)];

const ONE: [(u32, Did); 6] = [
    (0, Did::Enter),
    (1, Did::Submit("1 + 2")),
    (1, Did::Turn(1, 2)),
    (1, Did::Collect(1)),
    (1, Did::Leave),
    (0, Did::Close),
];

const WRAPPED: [(u32, Did); 7] = [
    (0, Did::Enter),
    (1, Did::Submit("2147483647 + 1")),
    (1, Did::Turn(1, 2)),
    (1, Did::Collect(1)),
    (1, Did::Submit("x")),
    (1, Did::Leave),
    (0, Did::Close),
];

const BETWEEN_BLANKS: [(u32, Did); 6] = [
    (0, Did::Enter),
    (1, Did::Submit("1-2")),
    (1, Did::Turn(1, 2)),
    (1, Did::Collect(1)),
    (1, Did::Leave),
    (0, Did::Close),
];

const TWO: [(u32, Did); 9] = [
    (0, Did::Enter),
    (1, Did::Submit("1")),
    (1, Did::Turn(1, 2)),
    (1, Did::Collect(1)),
    (1, Did::Submit("3+4")),
    (1, Did::Turn(2, 2)),
    (1, Did::Collect(2)),
    (1, Did::Leave),
    (0, Did::Close),
];

const FAULTY: [(u32, Did); 18] = [
    (0, Did::Enter),
    (1, Did::Submit("-2147483648")),
    (1, Did::Turn(1, 2)),
    (1, Did::Collect(1)),
    (1, Did::Submit("2147483648")),
    (1, Did::Submit("1 + 0x;")),
    (1, Did::Submit("1 + )")),
    (1, Did::Submit("1;")),
    (1, Did::Turn(2, 2)),
    (1, Did::Collect(2)),
    (1, Did::Submit("2")),
    (1, Did::Turn(3, 2)),
    (1, Did::Collect(3)),
    (1, Did::Submit("0xA - 07;")),
    (1, Did::Turn(4, 2)),
    (1, Did::Collect(4)),
    (1, Did::Leave),
    (0, Did::Close),
];

const ROWS: [Row; 8] = [
    Row {
        input: "1 + 2\n",
        written: "$1 ==> 3\n",
        journal: &ONE,
    },
    Row {
        input: "1 + 2",
        written: "$1 ==> 3\n",
        journal: &ONE,
    },
    Row {
        input: "",
        written: "",
        journal: &NOTHING,
    },
    Row {
        input: "// only a comment",
        written: "",
        journal: &NOTHING,
    },
    Row {
        input: "2147483647 + 1\nx\n",
        written: "$1 ==> -2147483648\n|  Error at 1:1: not built yet\n",
        journal: &WRAPPED,
    },
    Row {
        input: "-2147483648\n2147483648\n1 + 0x;\n1 + )\n// c\n1; 2\n0xA - 07;\n",
        written: "$1 ==> -2147483648\n|  Error at 1:1: number too big\n|  Error at 1:5: bad token\n|  Error at 1:5: unexpected text\n$5 ==> 1\n$6 ==> 2\n$7 ==> 3\n",
        journal: &FAULTY,
    },
    Row {
        input: " \t\n\r\n\t1-2 \n   \n",
        written: "$1 ==> -1\n",
        journal: &BETWEEN_BLANKS,
    },
    Row {
        input: "1\n3+4",
        written: "$1 ==> 1\n$2 ==> 7\n",
        journal: &TWO,
    },
];

/// The line `1 + 2` and a rest, over streams of which one call fails. The numbers of the calls are 0
/// for none.
struct Fault {
    read: u64,
    write: u64,
    idle_write: u64,
    status: u8,
    written: &'static str,
}

const FAULTS: [Fault; 5] = [
    Fault {
        read: 2,
        write: 0,
        idle_write: 0,
        status: 3,
        written: "$1 ==> 3\n",
    },
    Fault {
        read: 0,
        write: 1,
        idle_write: 0,
        status: 4,
        written: "",
    },
    Fault {
        read: 0,
        write: 2,
        idle_write: 0,
        status: 4,
        written: "$1 =",
    },
    Fault {
        read: 0,
        write: 0,
        idle_write: 1,
        status: 4,
        written: "",
    },
    Fault {
        read: 2,
        write: 1,
        idle_write: 0,
        status: 4,
        written: "",
    },
];

/// A list of one number, or of none for 0.
fn numbers(alloc: Global, number: u64) -> Result<Vec<u64>, AllocError> {
    let mut list = Vec::new(alloc);
    if number > 0 {
        list.push(number)?;
    }
    Ok(list)
}

/// A desk whose streams read and take so many bytes at a time.
fn desk(
    alloc: Global,
    input: &[u8],
    read: usize,
    write: usize,
    failing_opening: u64,
) -> Result<MemoryDesk, AllocError>
    requires reads { 0 < read }
    requires writes { 0 < write }
{
    let source = MemorySource::new(input.to_vec(alloc)?, read, Vec::new(alloc));
    let sink = MemorySink::new(Vec::new(alloc), write, Vec::new(alloc), Vec::new(alloc));
    Ok(MemoryDesk::new(alloc, source, sink, numbers(alloc, failing_opening)?))
}

/// A desk over the line `1 + 2` and a rest, which are read at once and written four bytes at a time.
fn faulty_desk(alloc: Global, fault: &Fault) -> Result<MemoryDesk, AllocError> {
    let source = MemorySource::new(b"1 + 2\n3".to_vec(alloc)?, 7, numbers(alloc, fault.read)?);
    let sink = MemorySink::new(
        Vec::new(alloc),
        4,
        numbers(alloc, fault.write)?,
        numbers(alloc, fault.idle_write)?,
    );
    Ok(MemoryDesk::new(alloc, source, sink, Vec::new(alloc)))
}

fn has_journal(report: &Report<MemorySource, MemorySink>, journal: &[(u32, Did)]) -> bool {
    for (place, wanted) in journal.iter().enumerate() {
        if !is_wanted(report.journal.get(place), wanted) {
            return false;
        }
    }
    report.journal.len() == journal.len()
}

/// Whether the only client is number 1 and has this status, and its sink holds this.
fn has_client(report: &Report<MemorySource, MemorySink>, status: u8, written: &str) -> bool {
    match report.clients.as_slice() {
        [client] => {
            client.number == 1
                && client.status == status
                && client.sink.bytes() == written.as_bytes()
        }
        _ => false,
    }
}

#[test]
fn serves_one_client(rt: HostRuntime) -> Result<(), Fail> {
    for row in &ROWS {
        for (read, write) in [(5, 3), (1, 1), (64, 64)] {
            assert!(rt; read > 0 && write > 0);
            let mut desk = desk(rt.alloc(), row.input.as_bytes(), read, write, 0)?;
            let report = run(&rt, rt.alloc(), &[], &mut desk, &OpenGate);
            assert_eq!(rt; report.status, 0, "{}", row.input);
            assert!(rt; has_journal(&report, row.journal), "{}", row.input);
            assert!(rt; has_client(&report, 0, row.written), "{}", row.input);
        }
    }
    Ok(())
}

#[test]
fn stops_at_a_fault(rt: HostRuntime) -> Result<(), Fail> {
    for fault in &FAULTS {
        let mut desk = faulty_desk(rt.alloc(), fault)?;
        let report = run(&rt, rt.alloc(), &[], &mut desk, &OpenGate);
        assert_eq!(rt; report.status, fault.status, "{}", fault.written);
        assert!(rt; has_journal(&report, &ONE), "{}", fault.written);
        assert!(rt;
            has_client(&report, fault.status, fault.written),
            "{}",
            fault.written
        );
    }
    Ok(())
}

/// So many lines, each of so many times this character.
fn lines_of(alloc: Global, lines: u32, letter: u8, letters: u32) -> Result<Vec<u8>, AllocError> {
    let mut input = Vec::new(alloc);
    for _ in 0..lines {
        for _ in 0..letters {
            input.push(letter)?;
        }
        input.push(b'\n')?;
    }
    Ok(input)
}

#[test]
fn stops_at_a_limit(rt: HostRuntime) -> Result<(), Fail> {
    let rows = [
        (
            1,
            b'x',
            65_536,
            0,
            4,
            31,
            "|  Error at 1:1: not built yet\n",
        ),
        (1, b'x', 65_537, 6, 3, 0, ""),
        (
            16_385,
            b';',
            1,
            6,
            16_388,
            507_936,
            "|  limit reached: Records 16384\n",
        ),
    ];
    for (lines, letter, letters, status, entries, written, last) in rows {
        let input = lines_of(rt.alloc(), lines, letter, letters)?;
        let mut desk = desk(rt.alloc(), &input, 4096, 4096, 0)?;
        let report = run(&rt, rt.alloc(), &[], &mut desk, &OpenGate);
        assert_eq!(rt; report.status, status);
        assert_eq!(rt; report.journal.len(), entries);
        assert_eq!(rt; report.clients.len(), 1);
        let bytes = report.clients[0].sink.bytes();
        assert_eq!(rt; bytes.len(), written);
        assert!(rt; bytes.ends_with(last.as_bytes()));
    }
    Ok(())
}

#[test]
fn cannot_open_the_streams(rt: HostRuntime) -> Result<(), Fail> {
    let word = String::from_str(rt.alloc(), "x")?;
    let words = [word];
    for (count, status) in [(0, 3), (1, 2)] {
        assert!(rt; count <= words.len());
        let mut desk = desk(rt.alloc(), b"1\n", 8, 8, 1)?;
        let report = run(&rt, rt.alloc(), &words[..count], &mut desk, &OpenGate);
        assert_eq!(rt; report.status, status);
        assert!(rt; report.journal.is_empty() && report.clients.is_empty());
    }
    Ok(())
}

#[test]
fn refuses_words(rt: HostRuntime) -> Result<(), Fail> {
    let words = [String::from_str(rt.alloc(), "x")?];
    let mut desk = desk(rt.alloc(), b"1\n", 8, 8, 0)?;
    let report = run(&rt, rt.alloc(), &words, &mut desk, &OpenGate);
    assert_eq!(rt; report.status, 2);
    assert!(rt; report.journal.is_empty());
    assert_eq!(rt; report.clients.len(), 1);
    assert_eq!(rt; report.clients[0].number, 0);
    assert!(rt; report.clients[0].sink.bytes() == USAGE.as_bytes());
    Ok(())
}

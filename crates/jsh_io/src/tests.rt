// Each public call once, and the tables of short, failing and idle calls.
ghost use Rattle.std.specs.Prelude.{◌≡◌, ◌<◌, [], IfOk};

use super::*;
use std::alloc::{AllocError, Global};
use std::io::{Read, Write};
use std::test::Fail;
use std::{fs, io};

// A list of one number, or of none for 0.
fn numbers(alloc: Global, number: u64) -> Result<Vec<u64>, AllocError> {
    let mut list = Vec::new(alloc);
    if number > 0 {
        list.push(number)?;
    }
    Ok(list)
}

fn memory_source(
    alloc: Global,
    text: &str,
    piece: usize,
    failing: u64,
) -> Result<MemorySource, AllocError>
    requires { 0 < piece }
    ensures { IfOk result (λ source. source.faults ≡ 0) }
{
    Ok(MemorySource::new(
        text.as_bytes().to_vec(alloc)?,
        piece,
        numbers(alloc, failing)?,
    ))
}

fn memory_sink(
    alloc: Global,
    piece: usize,
    failing: u64,
    idle: u64,
) -> Result<MemorySink, AllocError>
    requires { 0 < piece }
    ensures no_fault { IfOk result (λ sink. sink.faults ≡ 0) }
    ensures empty { IfOk result (λ sink. sink.bytes.items ≡ []) }
{
    Ok(MemorySink::new(
        Vec::with_capacity(alloc, 16)?,
        piece,
        numbers(alloc, failing)?,
        numbers(alloc, idle)?,
    ))
}

// What is read until the end, and whether the end came without a fault.
fn read_all<S: Source>(alloc: Global, source: &mut S) -> Result<(Vec<u8>, bool), AllocError> {
    let mut all = Vec::new(alloc);
    let mut buf = [0u8; 3];
    for _ in 0..32 {
        match source.read(&mut buf) {
            Ok(0) => return Ok((all, true)),
            Ok(n) => all.extend_from_slice(&buf[..n])?,
            Err(Failed) => return Ok((all, false)),
        }
    }
    Ok((all, false))
}

#[test]
fn writes_a_whole_piece_or_stops_at_a_fault(rt: HostRuntime) -> Result<(), Fail> {
    let rows = [
        (16, 0, 0, "abcde", 0),
        (5, 0, 0, "abcde", 0),
        (2, 0, 0, "abcde", 0),
        (1, 0, 0, "abcde", 0),
        (2, 1, 0, "", 1),
        (2, 2, 0, "ab", 1),
        (2, 0, 3, "abcd", 1),
        (16, 0, 1, "", 1),
        (16, 2, 2, "abcde", 0),
    ];
    for (piece, failing, idle, held, faults) in rows {
        assert!(rt; piece > 0);
        let mut sink = memory_sink(rt.alloc(), piece, failing, idle)?;
        let written = write_whole(&mut sink, b"abcde");
        assert_eq!(rt; written.is_ok(), faults == 0, "{held}");
        assert_eq!(rt; sink.bytes(), held.as_bytes());
        assert_eq!(rt; sink.faults(), faults, "{held}");
    }
    Ok(())
}

#[test]
fn reads_to_the_end_or_to_a_fault(rt: HostRuntime) -> Result<(), Fail> {
    let rows = [
        (16, 0, "abcdefg", true, ""),
        (3, 0, "abcdefg", true, ""),
        (1, 0, "abcdefg", true, ""),
        (16, 1, "", false, "abcdefg"),
        (2, 3, "abcd", false, "efg"),
        (2, 9, "abcdefg", true, ""),
    ];
    for (piece, failing, read, ended, left) in rows {
        assert!(rt; piece > 0);
        let mut source = memory_source(rt.alloc(), "abcdefg", piece, failing)?;
        let (all, end) = read_all(rt.alloc(), &mut source)?;
        assert_eq!(rt; all.as_slice(), read.as_bytes());
        assert_eq!(rt; end, ended, "{read}");
        assert_eq!(rt; source.left(), left.as_bytes());
        assert_eq!(rt; source.faults() == 0, ended, "{read}");
    }
    Ok(())
}

#[test]
fn never_fails(rt: HostRuntime) -> Result<(), Fail> {
    let mut source = InfallibleSource::new(b"abcdefg".to_vec(rt.alloc())?, 2);
    let (all, ended) = read_all(rt.alloc(), &mut source)?;
    assert!(rt; ended && source.left().is_empty());

    let mut sink = InfallibleSink::new(Vec::new(rt.alloc()), 2);
    assert_eq!(rt; write_whole(&mut sink, &all), Ok(()));
    assert_eq!(rt; sink.written(), Some(b"abcdefg".as_slice()));
    Ok(())
}

// A desk whose fourth opening fails.
fn memory_desk(alloc: Global) -> Result<MemoryDesk, AllocError> {
    Ok(MemoryDesk::new(
        alloc,
        memory_source(alloc, "in", 16, 0)?,
        memory_sink(alloc, 16, 0, 0)?,
        numbers(alloc, 4)?,
    ))
}

#[test]
fn hands_out_the_standard_streams_once(rt: HostRuntime) -> Result<(), Fail> {
    let mut desk = memory_desk(rt.alloc())?;
    let (input, output) = desk.standard().ok().ok_or("no streams")?;
    assert_eq!(rt; input.left(), b"in".as_slice());
    assert_eq!(rt; output.bytes(), b"".as_slice());
    assert!(rt; desk.standard().is_err());
    Ok(())
}

fn add_file(
    alloc: Global,
    desk: &mut MemoryDesk,
    name: &str,
    text: &str,
) -> Result<(), AllocError> {
    let source = memory_source(alloc, text, 16, 0)?;
    desk.add_input(String::from_str(alloc, name)?, source)
}

#[test]
fn hands_out_each_file_once(rt: HostRuntime) -> Result<(), Fail> {
    let mut desk = memory_desk(rt.alloc())?;
    for (name, text) in [("p", "one"), ("q", "two"), ("p", "no"), ("r", "three")] {
        add_file(rt.alloc(), &mut desk, name, text)?;
    }
    let rows = [
        ("p", "one"),
        ("p", ""),
        ("q", "two"),
        ("r", ""),
        ("r", "three"),
        ("s", ""),
    ];
    for (name, text) in rows {
        let opened = desk.open_in(name);
        assert_eq!(rt; opened.is_ok(), !text.is_empty(), "{name}");
        if let Ok(source) = opened {
            assert_eq!(rt; source.left(), text.as_bytes());
        }
    }
    Ok(())
}

#[test]
fn hands_out_the_sink_of_a_name(rt: HostRuntime) -> Result<(), Fail> {
    let mut desk = memory_desk(rt.alloc())?;
    let sink = memory_sink(rt.alloc(), 16, 1, 0)?;
    desk.add_output(String::from_str(rt.alloc(), "p")?, sink)?;
    for (name, written) in [("q", Ok(1)), ("p", Err(Failed)), ("p", Ok(1))] {
        let mut sink = desk.open_out(name).ok().ok_or("no sink")?;
        assert_eq!(rt; sink.write(b"x"), written);
    }
    assert!(rt; desk.open_out("p").is_err());
    Ok(())
}

#[test]
fn counts_what_a_writer_refuses(rt: HostRuntime) -> Result<(), Fail> {
    let mut source = ReaderSource::new(b"abcd".as_slice());
    let (all, ended) = read_all(rt.alloc(), &mut source)?;
    let mut room = [0u8; 3];
    let mut sink = WriterSink::new(room.as_mut_slice());
    assert_eq!(rt; write_whole(&mut sink, &all), Err(Failed));
    assert!(rt; ended);
    Ok(())
}

// A stream whose calls are interrupted but for each third, and fail from the seventh on.
#[derive(Drop)]
struct Interrupted {
    calls: u32,
}

impl Interrupted {
    fn call(&mut self) -> io::Result<usize>
        ensures { IfOk result (λ n. n ≡ 0) }
    {
        self.calls = self.calls.saturating_add(1);
        if self.calls >= 7 {
            return Err(io::Error::from(io::ErrorKind::Other));
        }
        if self.calls % 3 > 0 {
            return Err(io::Error::from(io::ErrorKind::Interrupted));
        }
        Ok(0)
    }
}

impl Read for Interrupted {
    fn read(&mut self, _buf: &mut [u8]) -> io::Result<usize> {
        self.call()
    }
}

impl Write for Interrupted {
    fn write(&mut self, _buf: &[u8]) -> io::Result<usize> {
        self.call()
    }

    fn flush(&mut self) -> io::Result<()> {
        Ok(())
    }
}

#[test]
fn tries_an_interrupted_call_again(rt: HostRuntime) {
    let mut source = ReaderSource::new(Interrupted { calls: 0 });
    let mut sink = WriterSink::new(Interrupted { calls: 0 });
    for answer in [Ok(0), Ok(0), Err(Failed)] {
        assert_eq!(rt; source.read(&mut []), answer);
        assert_eq!(rt; sink.write(&[]), answer);
    }
}

const NAME: &str = "jsh_io.tmp";

fn write_file(desk: &mut RealDesk) -> Result<(), Failed> {
    let mut sink = desk.open_out(NAME)?;
    write_whole(&mut sink, b"two\nlines\n")
}

fn read_file(alloc: Global, desk: &mut RealDesk) -> Result<Vec<u8>, AllocError> {
    match desk.open_in(NAME) {
        Ok(mut source) => Ok(read_all(alloc, &mut source)?.0),
        Err(Failed) => Ok(Vec::new(alloc)),
    }
}

#[test]
fn writes_and_reads_a_file(rt: HostRuntime) -> Result<(), Fail> {
    let mut desk = RealDesk::new(rt);
    assert_eq!(rt; write_file(&mut desk), Ok(()));
    let all = read_file(rt.alloc(), &mut desk)?;
    fs::remove_file(&rt, NAME)?;
    assert_eq!(rt; all.as_slice(), b"two\nlines\n".as_slice());
    assert!(rt; desk.open_in(NAME).is_err());
    assert!(rt; desk.open_out("no such folder/file").is_err());
    Ok(())
}

#[test]
fn writes_the_standard_output(rt: HostRuntime) -> Result<(), Fail> {
    let mut desk = RealDesk::new(rt);
    let (mut input, mut output) = desk.standard().ok().ok_or("no streams")?;
    assert_eq!(rt; input.read(&mut []), Ok(0));
    assert_eq!(rt; write_whole(&mut output, b"standard output\n"), Ok(()));
    Ok(())
}

#[test]
fn holds_nobody(_rt: HostRuntime) {
    OpenGate.at(GatePoint::Begin, 1);
}

// Real streams and files as sources and sinks. What they read and write is the system's, so they
// tell none of it.
ghost use Rattle.std.specs.Prelude.{◌≡◌, ◌<◌, ◌≤◌, ◌^◌, None, length, is_err, if◌then◌else◌, IfOk, OnErr};
ghost use Rattle.std.specs.Io.KnownBytes.{ReadConsumes, WriteAppends};
ghost use Rattle.jsh_io.specs.Count.{one_more};

use super::streams::{Failed, Sink, Source};
use std::fs::File;
use std::io;
use std::io::{Read, Stdin, Stdout, Write};

/// A source over a reader. A read that a signal interrupted is tried again.
#[derive(Drop)]
pub struct ReaderSource<R> {
    reader: R,
    faults: u64,
    ghost fits: { faults < 2 ^ 64 },
}

impl<R: Read> ReaderSource<R> {
    pub fn new(reader: R) -> ReaderSource<R>
        ensures { result.faults ≡ 0 }
    {
        ReaderSource { reader, faults: 0 }
    }
}

impl<R: Read> Source for ReaderSource<R> {
    ghost left = { λ _. None };

    ghost faults = { λ source. source.faults };

    fn read(&mut self, buf: &mut [u8]) -> Result<usize, Failed>
        ensures bound { IfOk result (λ n. n ≤ length buf.new) }

        // What the reader gives is handed on.
        ensures through { ReadConsumes (R.remaining self.old.reader) (R.remaining self.new.reader) result buf.new }

        // Each error is counted.
        ensures fault { self.new.faults ≡ (if is_err result then one_more self.old.faults else self.old.faults) }
        ensures never_falls { self.old.faults ≤ self.new.faults }
        ensures in_range { self.new.faults < 2 ^ 64 }
    {
        'tries: for _ in 0..u64::MAX {
            match self.reader.read(buf) {
                Ok(n) => return Ok(n),
                Err(e) if e.kind() == io::ErrorKind::Interrupted => {}
                Err(_) => break,
            }
        }
        self.faults = self.faults.saturating_add(1);
        Err(Failed)
    }
}

/// A sink over a writer that keeps nothing back, so that what it takes is out at once. A write that
/// a signal interrupted is tried again.
#[derive(Drop)]
pub struct WriterSink<W> {
    writer: W,
    faults: u64,
    ghost fits: { faults < 2 ^ 64 },
}

impl<W: Write> WriterSink<W> {
    pub fn new(writer: W) -> WriterSink<W>
        ensures { result.faults ≡ 0 }
    {
        WriterSink { writer, faults: 0 }
    }
}

impl<W: Write> Sink for WriterSink<W> {
    ghost held = { λ _. None };

    ghost stream = { λ _. None };

    ghost faults = { λ sink. sink.faults };

    fn write(&mut self, piece: &[u8]) -> Result<usize, Failed>
        ensures bound { IfOk result (λ n. n ≤ length piece.now) }

        // What the writer takes is handed on.
        ensures through { WriteAppends (W.contents self.old.writer) (W.contents self.new.writer) result piece.now }

        // Each error is counted, and each write that took nothing of a piece that has bytes.
        ensures fault { OnErr result (self.new.faults ≡ one_more self.old.faults) }
        ensures nothing { IfOk result (λ n. n ≡ 0 → 0 < length piece.now → self.new.faults ≡ one_more self.old.faults) }
        ensures no_fault { IfOk result (λ n. 0 < n → self.new.faults ≡ self.old.faults) }
        ensures never_falls { self.old.faults ≤ self.new.faults }
        ensures in_range { self.new.faults < 2 ^ 64 }
    {
        'tries: for _ in 0..u64::MAX {
            match self.writer.write(piece) {
                Ok(n) => {
                    if n == 0 && !piece.is_empty() {
                        self.faults = self.faults.saturating_add(1);
                    }
                    return Ok(n);
                }
                Err(e) if e.kind() == io::ErrorKind::Interrupted => {}
                Err(_) => break,
            }
        }
        self.faults = self.faults.saturating_add(1);
        Err(Failed)
    }
}

/// The standard input, or a file to read.
#[derive(Drop)]
pub enum InputStream {
    Standard(Stdin),
    File(File),
}

impl Read for InputStream {
    fn read(&mut self, buf: &mut [u8]) -> io::Result<usize> {
        match self {
            InputStream::Standard(stdin) => stdin.read(buf),
            InputStream::File(file) => file.read(buf),
        }
    }
}

/// The standard output, or a file to write. Neither has a buffer.
#[derive(Drop)]
pub enum OutputStream {
    Standard(Stdout),
    File(File),
}

impl Write for OutputStream {
    fn write(&mut self, buf: &[u8]) -> io::Result<usize> {
        match self {
            OutputStream::Standard(stdout) => stdout.write(buf),
            OutputStream::File(file) => file.write(buf),
        }
    }

    fn flush(&mut self) -> io::Result<()> {
        match self {
            OutputStream::Standard(stdout) => stdout.flush(),
            OutputStream::File(file) => file.flush(),
        }
    }
}

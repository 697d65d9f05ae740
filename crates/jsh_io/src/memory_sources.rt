// Sources over bytes in memory.
ghost use Rattle.std.specs.Prelude.{◌≡◌, ◌<◌, ◌≤◌, ◌^◌, ◌↔◌, ◌++◌, min, Some, Ok, IsErr, is_err, if◌then◌else◌, length, take, drop, vec_len, IfOk, OnErr};
ghost use Rattle.jsh_io.specs.Count.{one_more};

use super::scripts::Script;
use super::streams::{Failed, Source};

/// Copies the front of some bytes into the buffer, as much as fits and at most so much.
fn copy_front(from: &[u8], most: usize, buf: &mut [u8]) -> usize
    ensures count { result ≡ min most (min (length from.now) (length buf.old)) }
    ensures copied { buf.new ≡ take result from.now ++ drop result buf.old }
{
    let n = most.min(from.len().min(buf.len()));
    buf[..n].copy_from_slice(&from[..n]);
    n
}

/// A source over bytes in memory that never fails. A read gives at most `piece` bytes.
#[derive(Drop)]
pub struct InfallibleSource {
    bytes: Vec<u8>,
    read: usize,
    piece: usize,
    ghost within: { read ≤ vec_len bytes },
    ghost moves: { 0 < piece },
}

impl InfallibleSource {
    ghost use Rattle.jsh_io.specs.Memory.{bytes_left};

    pub fn new(bytes: Vec<u8>, piece: usize) -> InfallibleSource
        requires { 0 < piece }
        ensures left { bytes_left result ≡ bytes.items }
        ensures piece { result.piece ≡ piece }
    {
        InfallibleSource {
            bytes,
            read: 0,
            piece,
        }
    }

    /// The bytes that are left.
    pub fn left(&self) -> &[u8]
        ensures { result.now ≡ bytes_left self.now }
    {
        &self.bytes[self.read..]
    }

    fn give(&mut self, buf: &mut [u8]) -> usize
        ensures count { result ≡ min self.old.piece (min (length (bytes_left self.old)) (length buf.old)) }
        ensures copied { buf.new ≡ take result (bytes_left self.old) ++ drop result buf.old }
        ensures rest { bytes_left self.new ≡ drop result (bytes_left self.old) }
        ensures piece { self.new.piece ≡ self.old.piece }
    {
        let n = copy_front(&self.bytes[self.read..], self.piece, buf);
        self.read += n;
        n
    }
}

impl Source for InfallibleSource {
    ghost use Rattle.jsh_io.specs.Memory.{bytes_left};

    ghost left = { λ source. Some (bytes_left source) };

    ghost faults = { λ _. 0 };

    fn read(&mut self, buf: &mut [u8]) -> Result<usize, Failed>
        // How many bytes each read gives.
        ensures amount { result ≡ Ok (min self.old.piece (min (length (bytes_left self.old)) (length buf.old))) }
        ensures copied { IfOk result (λ n. buf.new ≡ take n (bytes_left self.old) ++ drop n buf.old) }
        ensures rest { IfOk result (λ n. bytes_left self.new ≡ drop n (bytes_left self.old)) }
        ensures piece { self.new.piece ≡ self.old.piece }
    {
        Ok(self.give(buf))
    }
}

/// A source over bytes in memory, some of whose reads fail. A read gives at most `piece` bytes.
#[derive(Drop)]
pub struct MemorySource {
    source: InfallibleSource,
    script: Script,
    faults: u64,
    ghost fits: { faults < 2 ^ 64 },
}

impl MemorySource {
    ghost use Rattle.jsh_io.specs.Memory.{source_left, source_piece};

    /// The reads with the numbers of `failing` fail, the first read being number 1.
    pub fn new(bytes: Vec<u8>, piece: usize, failing: Vec<u64>) -> MemorySource
        requires { 0 < piece }
        ensures left { source_left result ≡ bytes.items }
        ensures piece { source_piece result ≡ piece }
        ensures script { result.script ≡ record { failing = failing; calls = 0 } }
        ensures faults { result.faults ≡ 0 }
    {
        MemorySource {
            source: InfallibleSource::new(bytes, piece),
            script: Script::new(failing),
            faults: 0,
        }
    }

    /// The bytes that are left.
    pub fn left(&self) -> &[u8]
        ensures { result.now ≡ source_left self.now }
    {
        self.source.left()
    }

    /// How many reads failed.
    pub fn faults(&self) -> u64
        ensures { result ≡ self.now.faults }
    {
        self.faults
    }
}

impl Source for MemorySource {
    ghost use Rattle.jsh_io.specs.Memory.{source_left, source_piece};
    ghost use Rattle.jsh_io.specs.Script.{Fails, called};

    ghost left = { λ source. Some (source_left source) };

    ghost faults = { λ source. source.faults };

    fn read(&mut self, buf: &mut [u8]) -> Result<usize, Failed>
        // Which reads fail, and how many bytes each other read gives.
        ensures planned { IsErr result ↔ Fails self.old.script }
        ensures amount { IfOk result (λ n. n ≡ min (source_piece self.old)
            (min (length (source_left self.old)) (length buf.old))) }
        ensures copied { IfOk result (λ n. buf.new ≡ take n (source_left self.old) ++ drop n buf.old) }
        ensures rest { IfOk result (λ n. source_left self.new ≡ drop n (source_left self.old)) }
        ensures none_lost { OnErr result (source_left self.new ≡ source_left self.old) }
        ensures counted { self.new.script ≡ called self.old.script }
        ensures fault { self.new.faults ≡ (if is_err result then one_more self.old.faults else self.old.faults) }
        ensures never_falls { self.old.faults ≤ self.new.faults }
        ensures in_range { self.new.faults < 2 ^ 64 }
        ensures piece { source_piece self.new ≡ source_piece self.old }
    {
        if self.script.next_fails() {
            self.faults = self.faults.saturating_add(1);
            return Err(Failed);
        }
        Ok(self.source.give(buf))
    }
}

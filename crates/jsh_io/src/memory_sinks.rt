// Sinks in memory.
ghost use Rattle.std.specs.Prelude.{◌≡◌, ◌<◌, ◌≤◌, ◌^◌, ◌++◌, min, Some, None, Ok, IsErr, is_err, length, take, IfOk, OnErr, IfSome};
ghost use Rattle.std.specs.Option.{option_copied};
ghost use Rattle.std.specs.Io.KnownBytes.{append_known};
ghost use Rattle.jsh_io.specs.Count.{one_more};

use super::scripts::Script;
use super::stream_labels::Label;
use super::streams::{Failed, Sink};

/// A sink in memory, some of whose writes fail or take nothing. A write takes at most `piece`
/// bytes. A write also fails where there is no memory for its bytes.
#[derive(Drop)]
pub struct MemorySink {
    bytes: Vec<u8>,
    piece: usize,
    idle: Vec<u64>,
    script: Script,
    faults: u64,
    label: Label,
    ghost moves: { 0 < piece },
    ghost fits: { faults < 2 ^ 64 },
}

impl MemorySink {
    ghost use Rattle.jsh_io.specs.Memory.{IsButLabel};
    ghost use Rattle.jsh_io.specs.declared.stream_labels.Label.TheVariants as label;

    /// The sink goes on from the bytes that are there, so room for more can be made before. The
    /// writes with the numbers of `failing` fail and those of `idle` take nothing, the first write
    /// being number 1.
    pub fn new(bytes: Vec<u8>, piece: usize, failing: Vec<u64>, idle: Vec<u64>) -> MemorySink
        requires { 0 < piece }
        ensures bytes { result.bytes ≡ bytes }
        ensures piece { result.piece ≡ piece }
        ensures idle { result.idle ≡ idle }
        ensures script { result.script ≡ record { failing = failing; calls = 0 } }
        ensures faults { result.faults ≡ 0 }
        ensures label { result.label ≡ label.Unknown }
    {
        MemorySink {
            bytes,
            piece,
            idle,
            script: Script::new(failing),
            faults: 0,
            label: Label::Unknown,
        }
    }

    /// The same sink, as this stream of a desk.
    pub(crate) fn labelled(self, label: Label) -> MemorySink
        ensures label { result.label ≡ label }
        ensures same { IsButLabel self result }
    {
        let mut sink = self;
        sink.label = label;
        sink
    }

    /// The bytes that the sink holds.
    pub fn bytes(&self) -> &[u8]
        ensures { result.now ≡ self.now.bytes.items }
    {
        &self.bytes
    }

    /// How many writes failed or took nothing of a piece that had bytes.
    pub fn faults(&self) -> u64
        ensures { result ≡ self.now.faults }
    {
        self.faults
    }
}

impl Sink for MemorySink {
    ghost use Rattle.jsh_io.specs.Script.{Fails, called};
    ghost use Rattle.jsh_io.specs.Memory.{IsIdle, HasNoRoom, stream_of};

    ghost held = { λ sink. Some sink.bytes.items };

    ghost stream = { λ sink. stream_of sink.label };

    ghost faults = { λ sink. sink.faults };

    fn write(&mut self, piece: &[u8]) -> Result<usize, Failed>
        // Which writes fail. Want of memory alone fails another.
        ensures planned { Fails self.old.script → IsErr result }
        ensures unplanned { IsErr result → ¬ Fails self.old.script → HasNoRoom self.old piece.now }

        // How many bytes each other write takes.
        ensures idle { IfOk result (λ n. IsIdle self.old → n ≡ 0) }
        ensures amount { IfOk result (λ n. ¬ IsIdle self.old → n ≡ min self.old.piece (length piece.now)) }
        ensures added { IfOk result (λ n. self.new.bytes.items ≡ self.old.bytes.items ++ take n piece.now) }
        ensures none_added { OnErr result (self.new.bytes.items ≡ self.old.bytes.items) }

        // What is counted.
        ensures counted { self.new.script ≡ called self.old.script }
        ensures fault { OnErr result (self.new.faults ≡ one_more self.old.faults) }
        ensures nothing { IfOk result (λ n. n ≡ 0 → 0 < length piece.now → self.new.faults ≡ one_more self.old.faults) }
        ensures no_fault { IfOk result (λ n. 0 < n → self.new.faults ≡ self.old.faults) }
        ensures never_falls { self.old.faults ≤ self.new.faults }
        ensures in_range { self.new.faults < 2 ^ 64 }
        ensures same { (self.new.piece ≡ self.old.piece) × (self.new.idle ≡ self.old.idle) × (self.new.label ≡ self.old.label) }
    {
        if self.script.next_fails() {
            self.faults = self.faults.saturating_add(1);
            return Err(Failed);
        }
        if self.idle.contains(&self.script.calls()) {
            if !piece.is_empty() {
                self.faults = self.faults.saturating_add(1);
            }
            return Ok(0);
        }
        let n = piece.len().min(self.piece);
        if self.bytes.extend_from_slice(&piece[..n]).is_err() {
            self.faults = self.faults.saturating_add(1);
            return Err(Failed);
        }
        Ok(n)
    }
}

/// A sink in memory that never fails. A write takes at most `piece` bytes. The sink keeps them as
/// long as there is memory, and nothing after that, so it does not tell what it holds.
#[derive(Drop)]
pub struct InfallibleSink {
    bytes: Vec<u8>,
    is_complete: bool,
    piece: usize,
    ghost moves: { 0 < piece },
}

impl InfallibleSink {
    ghost use Rattle.jsh_io.specs.Memory.{written};

    /// The sink goes on from the bytes that are there, so room for more can be made before.
    pub fn new(bytes: Vec<u8>, piece: usize) -> InfallibleSink
        requires { 0 < piece }
        ensures written { written result ≡ Some bytes.items }
        ensures piece { result.piece ≡ piece }
    {
        InfallibleSink {
            bytes,
            is_complete: true,
            piece,
        }
    }

    /// All that was written, or nothing where memory ran out.
    pub fn written(&self) -> Option<&[u8]>
        ensures { option_copied result ≡ written self.now }
    {
        if self.is_complete {
            Some(&self.bytes)
        } else {
            None
        }
    }
}

impl Sink for InfallibleSink {
    ghost use Rattle.jsh_io.specs.Memory.{written};

    ghost held = { λ _. None };

    ghost stream = { λ _. None };

    ghost faults = { λ _. 0 };

    fn write(&mut self, piece: &[u8]) -> Result<usize, Failed>
        ensures amount { result ≡ Ok (min self.old.piece (length piece.now)) }
        ensures added { IfSome (written self.new) (λ bytes. IfOk result (λ n.
            append_known (written self.old) (take n piece.now) ≡ Some bytes)) }
        ensures piece { self.new.piece ≡ self.old.piece }
    {
        let n = piece.len().min(self.piece);
        if self.is_complete {
            self.is_complete = self.bytes.extend_from_slice(&piece[..n]).is_ok();
        }
        Ok(n)
    }
}

// A desk in memory.
ghost use Rattle.std.specs.Prelude.{◌≡◌, ◌<◌, ◌≤◌, ◌^◌, ◌++◌, ◌∷◌, ◌↔◌, [], Some, None, IsSome, IsOk, IsErr, is_err, if◌then◌else◌, IfOk, IfSome, OnOk, OnErr, string_bytes, vec_len};
ghost use Rattle.jsh_io.specs.Count.{one_more};

use super::desks::Desk;
use super::memory_sinks::MemorySink;
use super::memory_sources::MemorySource;
use super::named::{Named, take_named};
use super::openings::{file_label, take_input, whole_sink};
use super::scripts::Script;
use super::stream_labels::Label;
use super::streams::Failed;
use std::alloc::{AllocError, Global};

/// A source that has not failed yet.
#[derive(Drop)]
pub(crate) struct FreshSource {
    pub(crate) source: MemorySource,
    ghost no_fault: { source.faults ≡ 0 },
}

/// A sink that holds nothing and has not failed yet.
#[derive(Drop)]
pub(crate) struct FreshSink {
    sink: MemorySink,
    ghost no_fault: { sink.faults ≡ 0 },
    ghost empty: { vec_len sink.bytes ≡ 0 },
}

/// The standard streams, until they are taken.
#[derive(Drop)]
pub(crate) struct FreshStreams {
    source: FreshSource,
    sink: FreshSink,
}

/// A desk in memory, some of whose openings fail. It hands out each input once. A name that it
/// has no sink for gets one that takes whole pieces and never fails by plan. A sink tells its name
/// as long as there was memory for that.
#[derive(Drop)]
pub struct MemoryDesk {
    alloc: Global,
    standard: Option<FreshStreams>,
    inputs: Vec<Named<FreshSource>>,
    outputs: Vec<Named<FreshSink>>,
    script: Script,
    input_faults: u64,
    output_faults: u64,
    ghost inputs_fit: { input_faults < 2 ^ 64 },
    ghost outputs_fit: { output_faults < 2 ^ 64 },
}

impl MemoryDesk {
    ghost use Rattle.jsh_io.specs.Memory.{source_left};
    ghost use Rattle.jsh_io.specs.MemoryDesk.{inputs_of, outputs_of};

    /// The openings with the numbers of `failing` fail, the first opening being number 1.
    pub fn new(
        alloc: Global,
        source: MemorySource,
        sink: MemorySink,
        failing: Vec<u64>,
    ) -> MemoryDesk
        requires unread { source.faults ≡ 0 }
        requires unwritten { sink.faults ≡ 0 }
        requires empty { sink.bytes.items ≡ [] }
        ensures inputs { inputs_of result ≡ record { standard = Some (source_left source); files = [] } }
        ensures script { result.script ≡ record { failing = failing; calls = 0 } }
        ensures input_faults { result.input_faults ≡ 0 }
        ensures output_faults { result.output_faults ≡ 0 }
    {
        MemoryDesk {
            alloc,
            standard: Some(FreshStreams {
                source: FreshSource { source },
                sink: FreshSink { sink },
            }),
            inputs: Vec::new(alloc),
            outputs: Vec::new(alloc),
            script: Script::new(failing),
            input_faults: 0,
            output_faults: 0,
        }
    }

    /// Adds a file to read. Where the name stands twice, the first file is meant.
    pub fn add_input(&mut self, name: String, source: MemorySource) -> Result<(), AllocError>
        requires { source.faults ≡ 0 }
        ensures ok { OnOk result ((inputs_of self.new).files
            ≡ (inputs_of self.old).files ++ (string_bytes name, source_left source) ∷ []) }
        ensures err { OnErr result (inputs_of self.new ≡ inputs_of self.old) }
        ensures standard { (inputs_of self.new).standard ≡ (inputs_of self.old).standard }
    {
        self.inputs.push(Named {
            name,
            value: FreshSource { source },
        })?;
        Ok(())
    }

    /// Adds the sink that opening this name for output is to give.
    pub fn add_output(&mut self, name: String, sink: MemorySink) -> Result<(), AllocError>
        requires unwritten { sink.faults ≡ 0 }
        requires empty { sink.bytes.items ≡ [] }
        ensures ok { OnOk result (outputs_of self.new ≡ outputs_of self.old ++ (string_bytes name, sink) ∷ []) }
        ensures err { OnErr result (outputs_of self.new ≡ outputs_of self.old) }
        ensures inputs { inputs_of self.new ≡ inputs_of self.old }
    {
        self.outputs.push(Named {
            name,
            value: FreshSink { sink },
        })?;
        Ok(())
    }
}

impl Desk for MemoryDesk {
    ghost use Rattle.jsh_io.specs.Inputs.{bytes_of, without_file, without_standard};
    ghost use Rattle.jsh_io.specs.Memory.{source_left, stream_of, IsButLabel};
    ghost use Rattle.jsh_io.specs.MemoryDesk.{inputs_of};
    ghost use Rattle.jsh_io.specs.Streams.{IsStreamWhereTold};
    ghost use Rattle.jsh_io.specs.Streams.StreamName.{StandardStream, FileNamed};
    ghost use Rattle.jsh_io.specs.Named.{first_named};
    ghost use Rattle.jsh_io.specs.Script.{Fails, called};

    type In = MemorySource;

    type Out = MemorySink;

    ghost inputs = { λ desk. Some (inputs_of desk) };

    ghost input_faults = { λ desk. desk.input_faults };

    ghost output_faults = { λ desk. desk.output_faults };

    fn standard(&mut self) -> Result<(MemorySource, MemorySink), Failed>
        // When it fails.
        ensures planned { Fails self.old.script → IsErr result }
        ensures gone { (inputs_of self.old).standard ≡ None → IsErr result }
        ensures succeeds { ¬ Fails self.old.script → IsSome (inputs_of self.old).standard → IsOk result }

        // What it hands out, and what stays.
        ensures opened { IfOk result (λ streams. (inputs_of self.old).standard ≡ Some (source_left streams.0)) }
        ensures taken { OnOk result (inputs_of self.new ≡ without_standard (inputs_of self.old)) }
        ensures kept { OnErr result (inputs_of self.new ≡ inputs_of self.old) }
        ensures fresh_in { IfOk result (λ streams. streams.0.faults ≡ 0) }
        ensures fresh_out { IfOk result (λ streams. streams.1.faults ≡ 0) }
        ensures empty { IfOk result (λ streams. streams.1.bytes.items ≡ []) }
        ensures stream { IfOk result (λ streams. stream_of streams.1.label ≡ Some StandardStream) }

        // What is counted.
        ensures counted { self.new.script ≡ called self.old.script }
        ensures fault { self.new.input_faults
            ≡ (if is_err result then one_more self.old.input_faults else self.old.input_faults) }
        ensures no_fault { self.new.output_faults ≡ self.old.output_faults }
        ensures never_falls_in { self.old.input_faults ≤ self.new.input_faults }
        ensures never_falls_out { self.old.output_faults ≤ self.new.output_faults }
        ensures in_range_in { self.new.input_faults < 2 ^ 64 }
        ensures in_range_out { self.new.output_faults < 2 ^ 64 }
    {
        if !self.script.next_fails() {
            if let Some(FreshStreams { source, sink }) = self.standard.take() {
                return Ok((source.source, sink.sink.labelled(Label::Standard)));
            }
        }
        self.input_faults = self.input_faults.saturating_add(1);
        Err(Failed)
    }

    fn open_in(&mut self, name: &str) -> Result<MemorySource, Failed>
        // When it fails.
        ensures planned { Fails self.old.script → IsErr result }
        ensures missing { bytes_of name.now (inputs_of self.old).files ≡ None → IsErr result }
        ensures succeeds { ¬ Fails self.old.script → IsSome (bytes_of name.now (inputs_of self.old).files)
            → IsOk result }

        // What it hands out, and what stays.
        ensures opened { IfOk result (λ source.
            bytes_of name.now (inputs_of self.old).files ≡ Some (source_left source)) }
        ensures taken { OnOk result (inputs_of self.new ≡ without_file name.now (inputs_of self.old)) }
        ensures kept { OnErr result (inputs_of self.new ≡ inputs_of self.old) }
        ensures fresh { IfOk result (λ source. source.faults ≡ 0) }

        // What is counted.
        ensures counted { self.new.script ≡ called self.old.script }
        ensures fault { self.new.input_faults
            ≡ (if is_err result then one_more self.old.input_faults else self.old.input_faults) }
        ensures no_fault { self.new.output_faults ≡ self.old.output_faults }
        ensures never_falls_in { self.old.input_faults ≤ self.new.input_faults }
        ensures never_falls_out { self.old.output_faults ≤ self.new.output_faults }
        ensures in_range_in { self.new.input_faults < 2 ^ 64 }
        ensures in_range_out { self.new.output_faults < 2 ^ 64 }
    {
        if !self.script.next_fails() {
            if let Some(fresh) = take_input(&mut self.inputs, name) {
                return Ok(fresh.source);
            }
        }
        self.input_faults = self.input_faults.saturating_add(1);
        Err(Failed)
    }

    fn open_out(&mut self, name: &str) -> Result<MemorySink, Failed>
        ensures planned { IsErr result ↔ Fails self.old.script }
        ensures prepared { IfOk result (λ sink.
            IfSome (first_named name.now self.old.outputs.items) (λ fresh. IsButLabel fresh.sink sink)) }
        ensures kept { inputs_of self.new ≡ inputs_of self.old }
        ensures fresh { IfOk result (λ sink. sink.faults ≡ 0) }
        ensures empty { IfOk result (λ sink. sink.bytes.items ≡ []) }
        ensures stream { IfOk result (λ sink. IsStreamWhereTold (stream_of sink.label) (FileNamed name.now)) }

        // What is counted.
        ensures counted { self.new.script ≡ called self.old.script }
        ensures fault { self.new.output_faults
            ≡ (if is_err result then one_more self.old.output_faults else self.old.output_faults) }
        ensures no_fault { self.new.input_faults ≡ self.old.input_faults }
        ensures never_falls_in { self.old.input_faults ≤ self.new.input_faults }
        ensures never_falls_out { self.old.output_faults ≤ self.new.output_faults }
        ensures in_range_in { self.new.input_faults < 2 ^ 64 }
        ensures in_range_out { self.new.output_faults < 2 ^ 64 }
    {
        if self.script.next_fails() {
            self.output_faults = self.output_faults.saturating_add(1);
            return Err(Failed);
        }
        let label = file_label(self.alloc, name);
        match take_named(&mut self.outputs, name) {
            Some(FreshSink { sink }) => Ok(sink.labelled(label)),
            None => Ok(whole_sink(self.alloc).labelled(label)),
        }
    }
}

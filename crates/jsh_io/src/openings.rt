// What a desk in memory opens.
ghost use Rattle.std.specs.Prelude.{◌≡◌, [], map, option_map, IfNone};
ghost use Rattle.jsh_io.specs.Inputs.{bytes_of, others};
ghost use Rattle.jsh_io.specs.Memory.{source_left, stream_of};
ghost use Rattle.jsh_io.specs.MemoryDesk.{file_of};
ghost use Rattle.jsh_io.specs.Streams.{IsStreamWhereTold};
ghost use Rattle.jsh_io.specs.Streams.StreamName.{FileNamed};

use super::memory_desks::FreshSource;
use super::memory_sinks::MemorySink;
use super::named::{Named, take_named};
use super::stream_labels::Label;
use std::alloc::Global;

/// Takes the files of this name out, and answers the first of them.
pub(crate) fn take_input(inputs: &mut Vec<Named<FreshSource>>, name: &str) -> Option<FreshSource>
    ensures bytes { option_map (λ fresh. source_left fresh.source) result ≡ bytes_of name.now (map file_of inputs.old.items) }
    ensures rest { map file_of inputs.new.items ≡ others name.now (map file_of inputs.old.items) }
    ensures missing { IfNone result (map file_of inputs.new.items ≡ map file_of inputs.old.items) }
{
    take_named(inputs, name)
}

/// An empty sink that takes whole pieces and never fails by plan.
pub(crate) fn whole_sink(alloc: Global) -> MemorySink
    ensures empty { result.bytes.items ≡ [] }
    ensures no_fault { result.faults ≡ 0 }
{
    MemorySink::new(
        Vec::new(alloc),
        usize::MAX,
        Vec::new(alloc),
        Vec::new(alloc),
    )
}

/// The label of the file of this name, where there is memory for the name.
pub(crate) fn file_label(alloc: Global, name: &str) -> Label
    ensures { IsStreamWhereTold (stream_of result) (FileNamed name.now) }
{
    match String::from_str(alloc, name) {
        Ok(name) => Label::File(name),
        Err(_refused) => Label::Unknown,
    }
}

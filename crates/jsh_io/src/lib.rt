//! What a shell reads, writes and opens, as traits, with implementations in memory and over the
//! real streams and files.
#![tactic(auto)]

mod adapters;
mod desks;
mod gates;
mod memory_desks;
mod memory_sinks;
mod memory_sources;
mod named;
mod openings;
mod real_desks;
mod scripts;
mod stream_labels;
mod streams;
mod writing;

pub use adapters::{InputStream, OutputStream, ReaderSource, WriterSink};
pub use desks::Desk;
pub use gates::{Gate, GatePoint, OpenGate};
pub use memory_desks::MemoryDesk;
pub use memory_sinks::{InfallibleSink, MemorySink};
pub use memory_sources::{InfallibleSource, MemorySource};
pub use real_desks::RealDesk;
pub use streams::{Failed, Sink, Source};
pub use writing::write_whole;

#[cfg(test)]
mod tests;

// The desk over the standard streams and the files of the system.
ghost use Rattle.std.specs.Prelude.{◌≡◌, ◌<◌, ◌^◌, None};

use super::adapters::{InputStream, OutputStream, ReaderSource, WriterSink};
use super::desks::Desk;
use super::streams::Failed;
use std::fs::File;

/// Hands out the standard streams of the process, and opens files by their paths. What the files
/// have is the system's, so the desk tells none of it.
#[derive(Drop)]
pub struct RealDesk {
    rt: HostRuntime,
    input_faults: u64,
    output_faults: u64,
    ghost inputs_fit: { input_faults < 2 ^ 64 },
    ghost outputs_fit: { output_faults < 2 ^ 64 },
}

impl RealDesk {
    pub fn new(rt: HostRuntime) -> RealDesk
        ensures input_faults { result.input_faults ≡ 0 }
        ensures output_faults { result.output_faults ≡ 0 }
    {
        RealDesk {
            rt,
            input_faults: 0,
            output_faults: 0,
        }
    }
}

impl Desk for RealDesk {
    type In = ReaderSource<InputStream>;

    type Out = WriterSink<OutputStream>;

    ghost inputs = { λ _. None };

    ghost input_faults = { λ desk. desk.input_faults };

    ghost output_faults = { λ desk. desk.output_faults };

    fn standard(
        &mut self,
    ) -> Result<(ReaderSource<InputStream>, WriterSink<OutputStream>), Failed> {
        Ok((
            ReaderSource::new(InputStream::Standard(self.rt.stdin())),
            WriterSink::new(OutputStream::Standard(self.rt.stdout())),
        ))
    }

    fn open_in(&mut self, name: &str) -> Result<ReaderSource<InputStream>, Failed> {
        match File::open(&self.rt, name) {
            Ok(file) => Ok(ReaderSource::new(InputStream::File(file))),
            Err(_) => {
                self.input_faults = self.input_faults.saturating_add(1);
                Err(Failed)
            }
        }
    }

    fn open_out(&mut self, name: &str) -> Result<WriterSink<OutputStream>, Failed> {
        match File::create(&self.rt, name) {
            Ok(file) => Ok(WriterSink::new(OutputStream::File(file))),
            Err(_) => {
                self.output_faults = self.output_faults.saturating_add(1);
                Err(Failed)
            }
        }
    }
}

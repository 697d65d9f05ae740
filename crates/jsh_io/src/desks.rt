// What hands out streams.
ghost use Rattle.std.specs.Prelude.{◌≡◌, ℕ, ◌<◌, ◌≤◌, ◌^◌, Option, Some, option_map, IfOk, OnOk, OnErr, IfSome, IsSomeAnd};
ghost use Rattle.jsh_io.specs.Count.{Rose};
ghost use Rattle.jsh_io.specs.Streams.{IsStreamWhereTold};
ghost use Rattle.jsh_io.specs.Streams.StreamName.{StandardStream, FileNamed};
ghost use Rattle.jsh_io.specs.Inputs.{Inputs, without_standard, bytes_of, without_file, IsEmptyWhereTold};

use super::streams::{Failed, Sink, Source};

/// Hands out the standard streams, and opens files by name.
pub trait Desk {
    type In: Source + Send + Drop;

    type Out: Sink + Send + Drop;

    // What there is to read, or `None` where the desk does not tell it.
    ghost inputs: { Self → Option Inputs };

    // How many faults there were at the standard streams and at opening for input.
    ghost input_faults: { Self → ℕ };

    // How many faults there were at opening for output.
    ghost output_faults: { Self → ℕ };

    /// The standard input and the standard output.
    fn standard(&mut self) -> Result<(Self::In, Self::Out), Failed>
        ensures opened { IfOk result (λ streams. IfSome (inputs self.old)
            (λ all. IsSomeAnd all.standard (λ bytes. Self.In.left streams.0 ≡ Some bytes))) }
        ensures taken { OnOk result (inputs self.new ≡ option_map without_standard (inputs self.old)) }
        ensures kept { OnErr result (inputs self.new ≡ inputs self.old) }
        ensures fresh_in { IfOk result (λ streams. Self.In.faults streams.0 ≡ 0) }
        ensures fresh_out { IfOk result (λ streams. Self.Out.faults streams.1 ≡ 0) }
        ensures empty { IfOk result (λ streams. IsEmptyWhereTold (Self.Out.held streams.1)) }
        ensures stream { IfOk result (λ streams. IsStreamWhereTold (Self.Out.stream streams.1) StandardStream) }
        ensures failed { OnErr result (Rose (input_faults self.old) (input_faults self.new)) }
        ensures never_falls_in { input_faults self.old ≤ input_faults self.new }
        ensures never_falls_out { output_faults self.old ≤ output_faults self.new }
        ensures in_range_in { input_faults self.new < 2 ^ 64 }
        ensures in_range_out { output_faults self.new < 2 ^ 64 };

    /// Opens a file to read it. A desk that tells its inputs hands out each of them once.
    fn open_in(&mut self, name: &str) -> Result<Self::In, Failed>
        ensures opened { IfOk result (λ source. IfSome (inputs self.old)
            (λ all. IsSomeAnd (bytes_of name.now all.files) (λ bytes. Self.In.left source ≡ Some bytes))) }
        ensures taken { OnOk result (inputs self.new ≡ option_map (without_file name.now) (inputs self.old)) }
        ensures kept { OnErr result (inputs self.new ≡ inputs self.old) }
        ensures fresh { IfOk result (λ source. Self.In.faults source ≡ 0) }
        ensures failed { OnErr result (Rose (input_faults self.old) (input_faults self.new)) }
        ensures never_falls_in { input_faults self.old ≤ input_faults self.new }
        ensures never_falls_out { output_faults self.old ≤ output_faults self.new }
        ensures in_range_in { input_faults self.new < 2 ^ 64 }
        ensures in_range_out { output_faults self.new < 2 ^ 64 };

    /// Opens a file to write it from its start.
    fn open_out(&mut self, name: &str) -> Result<Self::Out, Failed>
        ensures kept { inputs self.new ≡ inputs self.old }
        ensures fresh { IfOk result (λ sink. Self.Out.faults sink ≡ 0) }
        ensures empty { IfOk result (λ sink. IsEmptyWhereTold (Self.Out.held sink)) }
        ensures stream { IfOk result (λ sink. IsStreamWhereTold (Self.Out.stream sink) (FileNamed name.now)) }
        ensures failed { OnErr result (Rose (output_faults self.old) (output_faults self.new)) }
        ensures never_falls_in { input_faults self.old ≤ input_faults self.new }
        ensures never_falls_out { output_faults self.old ≤ output_faults self.new }
        ensures in_range_in { input_faults self.new < 2 ^ 64 }
        ensures in_range_out { output_faults self.new < 2 ^ 64 };
}

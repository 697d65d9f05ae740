// Writing a whole piece.
ghost use Rattle.std.specs.Prelude.{◌≡◌, ◌≤◌, OnOk, OnErr};
ghost use Rattle.std.specs.Io.KnownBytes.{append_known};
ghost use Rattle.jsh_io.specs.Count.{Rose, TakesPart};

use super::streams::{Failed, Sink};

/// Writes the whole piece, by as many writes as the sink wants. It stops at the first fault.
pub fn write_whole<O: Sink>(sink: &mut O, piece: &[u8]) -> Result<(), Failed>
    ensures whole { OnOk result (O.held sink.new ≡ append_known (O.held sink.old) piece.now) }
    ensures part { OnErr result (TakesPart (O.held sink.old) (O.held sink.new) piece.now) }
    ensures no_fault { OnOk result (O.faults sink.new ≡ O.faults sink.old) }
    ensures failed { OnErr result (Rose (O.faults sink.old) (O.faults sink.new)) }
    ensures never_falls { O.faults sink.old ≤ O.faults sink.new }
    ensures stream { O.stream sink.new ≡ O.stream sink.old }
{
    let mut done = 0;
    while done < piece.len() {
        let taken = sink.write(&piece[done..])?;
        if taken == 0 {
            return Err(Failed);
        }
        done += taken;
    }
    Ok(())
}

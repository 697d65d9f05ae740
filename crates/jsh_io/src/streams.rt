// Where bytes come from, and where they go.
ghost use Rattle.std.specs.Prelude.{◌≡◌, ℕ, ◌<◌, ◌≤◌, ◌^◌, ◌↔◌, List, [], Option, length, take, drop, IfOk, OnOk, OnErr, IfSome};
ghost use Rattle.std.specs.Io.KnownBytes.{append_known, prepend_known};
ghost use Rattle.jsh_io.specs.Count.{Rose};
ghost use Rattle.jsh_io.specs.Streams.{StreamName};

/// The outside failed. The count of the object that was called says so too.
#[derive(Clone, Copy, Debug, PartialEq, Eq)]
pub struct Failed;

/// A stream of bytes to read.
pub trait Source {
    // The bytes that are left, or `None` where the source does not tell them.
    ghost left: { Self → Option (List ℕ) };

    // How many faults there were.
    ghost faults: { Self → ℕ };

    /// Reads bytes into the front of the buffer, and answers how many.
    fn read(&mut self, buf: &mut [u8]) -> Result<usize, Failed>
        ensures bound { IfOk result (λ n. n ≤ length buf.new) }
        ensures failed { OnErr result (Rose (faults self.old) (faults self.new)) }
        ensures no_fault { OnOk result (faults self.new ≡ faults self.old) }
        ensures never_falls { faults self.old ≤ faults self.new }
        ensures in_range { faults self.new < 2 ^ 64 }

        // The bytes left were those read and then those left now. Whether they are told stays.
        ensures bytes { IfOk result (λ n. left self.old ≡ prepend_known (take n buf.new) (left self.new)) }
        ensures none_lost { OnErr result (left self.new ≡ left self.old) }

        // Where the bytes are told.
        ensures rest { IfOk result (λ n. IfSome (left self.old) (λ _. drop n buf.new ≡ drop n buf.old)) }
        ensures end { IfOk result (λ n. IfSome (left self.old)
            (λ bytes. 0 < length buf.old → ((n ≡ 0) ↔ (bytes ≡ [])))) };
}

/// A stream of bytes to write.
pub trait Sink {
    // The bytes that the sink holds, or `None` where it does not tell them.
    ghost held: { Self → Option (List ℕ) };

    // Which stream of a desk the sink is, or `None` where it does not tell that.
    ghost stream: { Self → Option StreamName };

    // How many faults there were.
    ghost faults: { Self → ℕ };

    /// Takes bytes from the front of the piece, and answers how many.
    fn write(&mut self, piece: &[u8]) -> Result<usize, Failed>
        ensures bound { IfOk result (λ n. n ≤ length piece.now) }
        ensures failed { OnErr result (Rose (faults self.old) (faults self.new)) }

        // To take nothing of a piece that has bytes is a fault.
        ensures nothing { IfOk result (λ n. n ≡ 0 → 0 < length piece.now → Rose (faults self.old) (faults self.new)) }
        ensures no_fault { IfOk result (λ n. 0 < n → faults self.new ≡ faults self.old) }
        ensures never_falls { faults self.old ≤ faults self.new }
        ensures in_range { faults self.new < 2 ^ 64 }

        // A sink stays the stream that it is.
        ensures stream { stream self.new ≡ stream self.old }

        // The bytes held are those from before and then those taken. Whether they are told stays.
        ensures bytes { IfOk result (λ n. held self.new ≡ append_known (held self.old) (take n piece.now)) }
        ensures none_added { OnErr result (held self.new ≡ held self.old) };
}

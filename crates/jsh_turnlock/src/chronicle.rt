//! What can lie behind the lock.
ghost use Rattle.std.specs.Prelude.{◌≡◌, ℕ, List, length};

/// A value that keeps its own history: a list of entries, each with the number of the pass that added it.
pub trait Chronicle: Send + Drop {
    type Item;

    /// The entries in their order.
    ghost history: { Self → List (ℕ × Self.Item) };

    /// How many numbers the value knows of.
    ghost numbers: { Self → ℕ };

    /// The number of entries.
    fn len(&self) -> u64
        ensures { result ≡ length (history self.now) };

    /// How many numbers the value knows of. The lock has given out as many passes whenever it is free.
    fn numbers(&self) -> u32
        ensures { result ≡ numbers self.now };
}

// Which calls of an object in memory fail.
ghost use Rattle.std.specs.Prelude.{◌≡◌, ◌↔◌, IsTrue};

/// The numbers of the calls that are to fail, the first call being number 1, and how many calls
/// there were.
#[derive(Drop)]
pub(crate) struct Script {
    failing: Vec<u64>,
    calls: u64,
}

impl Script {
    ghost use Rattle.jsh_io.specs.Script.{Fails, called};

    pub(crate) fn new(failing: Vec<u64>) -> Script
        ensures { result ≡ record { failing = failing; calls = 0 } }
    {
        Script { failing, calls: 0 }
    }

    /// Counts a call, and answers whether it is to fail.
    pub(crate) fn next_fails(&mut self) -> bool
        ensures fails { IsTrue result ↔ Fails self.old }
        ensures counted { self.new ≡ called self.old }
    {
        self.calls = self.calls.saturating_add(1);
        self.failing.contains(&self.calls)
    }

    /// How many calls there were.
    pub(crate) fn calls(&self) -> u64
        ensures { result ≡ self.now.calls }
    {
        self.calls
    }
}

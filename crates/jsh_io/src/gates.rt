// Where a client can be held, so that a test can fix the order of what clients do.

/// A point that a client of the shell passes.
#[derive(Clone, Copy, Debug, PartialEq, Eq)]
pub enum GatePoint {
    /// A snippet is about to be handed in.
    Begin,
    /// A snippet was submitted, or a turn was run.
    Submitted,
    /// The answer of a run was collected.
    Collected,
    /// The client has left.
    End,
}

/// What each client asks at each point. It may hold the client there.
pub trait Gate: Sync {
    fn at(&self, point: GatePoint, client: u32);
}

/// The gate that holds nobody.
#[derive(Clone, Copy, Debug)]
pub struct OpenGate;

impl Gate for OpenGate {
    fn at(&self, _point: GatePoint, _client: u32) {}
}

use jsh_core::Core;

/// An engine, as one client goes on with it.
#[derive(Drop)]
pub struct Session {
    pub core: Core,
    /// The thread of the client's last turn, 0 before the first one.
    pub last_turn: u32,
    /// That of its last turn other than a main thread's of its own run, or 0. Other threads take turns
    /// from it on.
    pub cursor: u32,
}

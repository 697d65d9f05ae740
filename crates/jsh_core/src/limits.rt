/// Entries of a history, before its last leaves and its close.
pub const MOST_ENTRIES: u64 = 4_194_304;

/// Source bytes of a history.
pub const MOST_BYTES: u64 = 67_108_864;

/// Records between two resets.
pub const MOST_RECORDS: usize = 16_384;

/// Clients that are numbered, client 0 included.
pub const MOST_CLIENTS: usize = 64;

/// Threads that are alive at a time.
pub const MOST_THREADS: usize = 256;

/// Visible steps of one turn.
pub const MOST_STEPS: u32 = 256;

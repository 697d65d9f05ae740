// The statuses of a client and of a call.

/// All was read and served.
pub const ALL_SERVED: u8 = 0;

/// The words were refused.
pub const WORDS_REFUSED: u8 = 2;

/// A read, or an opening for input, failed.
pub const READ_FAILED: u8 = 3;

/// A write failed.
pub const WRITE_FAILED: u8 = 4;

/// There was no memory.
pub const MEMORY_SHORT: u8 = 5;

/// A limit was met.
pub const LIMIT_MET: u8 = 6;

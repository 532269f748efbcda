// The statuses that a command ends with, and the limit of a source.

/// The program came to its end, or the object was written.
pub const DONE: u8 = 0;

/// The words have no form of a command.
pub const BAD_WORDS: u8 = 2;

/// The turns were spent.
pub const TURNS_SPENT: u8 = 3;

/// The text spells no program that is built yet, or the texts give no object.
pub const REFUSED: u8 = 6;

/// A file couldn't be read.
pub const UNREAD: u8 = 8;

/// A sink failed, or the object couldn't be written.
pub const WRITE_FAULT: u8 = 9;

/// Want of memory.
pub const NO_MEMORY: u8 = 10;

/// How many bytes a source may have.
pub const MAX_SOURCE_BYTES: u32 = 1_048_576;

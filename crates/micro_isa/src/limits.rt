//! What the project takes at most, each limit once: code, definitions and proofs name it from here.

/// Contexts of a bundle or an image.
pub const MOST_CONTEXTS: usize = 8;
/// Source registers of a context.
pub const MOST_REGISTERS: usize = 128;
/// Registers of the file.
pub const MOST_FILE: u32 = 128;
/// Instructions of a context.
pub const MOST_INSTRUCTIONS: usize = 2048;
/// Words of a context in an image: for each instruction its own, three moves on both of its edges for each
/// register of the file but one, and a jump.
pub const MOST_WORDS: usize = MOST_INSTRUCTIONS * (2 + 6 * (MOST_FILE as usize - 1));
/// Words of memory.
pub const MOST_MEMORY: u32 = 65_536;
/// Channels of a bundle or an image.
pub const MOST_CHANNELS: usize = 16;
/// Ports: their numbers are below it.
pub const MOST_PORTS: usize = 16;
/// Capacity of a channel.
pub const MOST_RING: u32 = 1024;
/// Initial words of all inputs.
pub const MOST_INITIAL_WORDS: usize = 65_536;
/// Steps of a run.
pub const MOST_STEPS: u32 = 1_048_576;

/// Bytes of a name.
pub const LONGEST_NAME: usize = 32;
/// Bytes of an input that is a bundle.
pub const LONGEST_BUNDLE: usize = 1_048_576;
/// Bytes of a text that is read as a bundle: the canonical text of an input may be longer than the input.
pub const LONGEST_TEXT: usize = 2_097_152;
/// Bytes of an input that is a bundle and its journal.
pub const LONGEST_JOURNAL: usize = 67_108_864;
/// Bytes of an input that is an image.
pub const LONGEST_IMAGE: usize = 167_772_160;

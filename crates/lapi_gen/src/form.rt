//! The numbers of the generated input's form.

/// The layout of the script's packets.
pub const LAYOUT: u32 = 1;

/// The tasks of the script.
pub const TASKS: usize = 5;

/// The bytes of each task's memory.
pub const MEMORY: u32 = 65_536;

/// The counters of each task.
pub const COUNTERS: u32 = 8;

/// The workers of each task.
pub const WORKERS: u32 = 2;

/// The stores that each task begins with.
pub const STORES: u32 = 4;

/// The bytes of each store.
pub const STORED: u32 = 1_024;

/// The values of a byte.
pub const BYTE: u32 = 256;

/// The batches of calls that follow; each task makes one call in each.
pub const BATCHES: u32 = 48;

/// The kinds of calls.
pub const KINDS: u32 = 4;

/// The most bytes that a call moves.
pub const LONGEST: u32 = 4_096;

/// On average one batch in so many loses a packet on each link.
pub const LOSS: u32 = 2;

/// Where the bytes lie that calls move, which were stored there.
pub const DATA: u32 = 0;

/// The bytes of each part of a memory to which one task's calls move bytes. The first part has as many before it.
pub const AREA: u32 = 8_192;

/// Where the word lies that read-modify-writes add to.
pub const WORD: u32 = 4_096;

/// Where they write what that word was.
pub const OLD_WORD: u32 = 4_104;

/// Where the words lie that completion handlers write, one for each origin.
pub const SUMS: u32 = 4_112;

/// The header handler that takes all that it answers from the user header.
pub const HEADER_HANDLER: u32 = 1;

/// The completion handler that writes the sum of the bytes.
pub const COMPLETION_HANDLER: u32 = 1;

/// The worker that runs the completion handlers.
pub const WORKER: u32 = 0;

/// The counter of each call at the target.
pub const TARGET_COUNTER: u32 = 0;

/// Its counter at the origin.
pub const ORIGIN_COUNTER: u32 = 1;

/// Its completion counter.
pub const COMPLETION_COUNTER: u32 = 2;

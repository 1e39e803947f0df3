// What the programs read at most, and what they lend.

// One byte more than an input may have, so that one that is too long is seen.
pub const MOST_READ: usize = 65537;

// The records of a store.
pub const STORE_RECORDS: usize = 4096;

// The line records of a derivation.
pub const LINE_RECORDS: usize = 1024;

// Room for a conclusion and 32 premises of 1,024 bytes each, and what stands between them.
pub const ANSWER_ROOM: usize = 40000;

// The audit's marks, one for each 16 bytes of arena, by the names that specs/Marks.antt gives them. Assumes nothing.
// Kept: (a) bytes, not an enum: audit_reached::FIRST_MARK goes on from here by the list's number, and one byte for each 16 bytes of arena is what the bound on the
// stack is made of (no heap, fixed memory).

// No chunk starts here, or the top does.
pub const UNMARKED: u8 = 0;

// A chunk that no list had yet.
pub const UNMET: u8 = 1;

// A chunk that a cache list or a fast list has.
pub const STACKED: u8 = 2;

// A chunk that a bin has.
pub const BINNED: u8 = 3;

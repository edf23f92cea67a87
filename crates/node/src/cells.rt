// The cells of a node by name: its kind, its height, three references, four numbers.
// Numbers and no enum: they are places in the table, and `cell` promises 0 for any past the last.
pub const KIND: usize = 0;

pub const HEIGHT: usize = 1;

// Kept for the bytes that the node was read from, and 0.
pub const FROM: usize = 2;

pub const TO: usize = 3;

// The references.
pub const A: usize = 4;

pub const B: usize = 5;

pub const C: usize = 6;

// The numbers.
pub const P: usize = 7;

pub const Q: usize = 8;

pub const R: usize = 9;

pub const S: usize = 10;

// Always 0.
pub const LAST: usize = 11;

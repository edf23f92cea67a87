// The bits of the crate's FuncClass.
// Numbers and no enum: they stand in the table's cells, which C reads (docs/NODES.md).
pub const PUBLIC: u32 = 1;

pub const PROTECTED: u32 = 2;

pub const PRIVATE: u32 = 4;

pub const GLOBAL: u32 = 8;

pub const STATIC: u32 = 16;

pub const VIRTUAL: u32 = 32;

pub const FAR: u32 = 64;

pub const THUNK: u32 = 128;

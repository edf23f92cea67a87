// The calling conventions, by their places in the crate's enum CallingConv.
// Numbers and no enum: they stand in the table's cells, which C reads (docs/NODES.md).
pub const CDECL: u32 = 0;

pub const PASCAL: u32 = 1;

pub const THISCALL: u32 = 2;

pub const STDCALL: u32 = 3;

pub const FASTCALL: u32 = 4;

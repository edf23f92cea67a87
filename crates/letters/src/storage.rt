// The bits of the crate's StorageClass.
// Numbers and no enum: they stand in the table's cells, which C reads (docs/NODES.md).
pub const CONST: u32 = 1;

pub const VOLATILE: u32 = 2;

pub const CONST_VOLATILE: u32 = CONST + VOLATILE;

pub const UNALIGNED: u32 = 16;

pub const RESTRICT: u32 = 32;

pub const PTR64: u32 = 64;

pub const LVALUE_QUAL: u32 = 128;

pub const RVALUE_QUAL: u32 = 256;

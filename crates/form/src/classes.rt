// The classes of kinds, a bit each; specs/Kinds.antt says what stands in them.
// Bits and no enum: a reference may name one of several classes, and `fits` asks by one number for all.
pub const NONE: usize = 1;

pub const PLAIN: usize = 2;

pub const SCOPED: usize = 4;

pub const NESTED: usize = 8;

pub const OPERATOR: usize = 16;

pub const MD5: usize = 32;

pub const NAMES: usize = 64;

pub const TYPES: usize = 128;

pub const SYMBOL: usize = 256;

pub const OUTER: usize = 512;

pub const PARSED: usize = 1024;

pub const VAR_TYPE: usize = 2048;

pub const FUNCTION: usize = 4096;

pub const VAR_ARGS: usize = 8192;

pub const NO_TYPE: usize = 16_384;

pub const OUTER_TYPE: usize = 32_768;

// What the references of a kind may be, where that is more than one class.
pub const SCOPE: usize = NONE + NAMES;

pub const LIST: usize = NONE + TYPES;

pub const ENTRY: usize = PLAIN + SCOPED + NESTED;

pub const PARAMETER: usize = VAR_TYPE + FUNCTION + VAR_ARGS;

pub const TYPE: usize = VAR_TYPE + FUNCTION;

pub const RETURN: usize = VAR_TYPE + FUNCTION + NO_TYPE;

pub const ROOT_NAME: usize = SYMBOL + OUTER;

pub const ROOT_TYPE: usize = NO_TYPE + OUTER_TYPE + FUNCTION;

pub const OWN_NAME: usize = PLAIN + SCOPED + OPERATOR;

pub const OUTER_NAME: usize = PLAIN + SCOPED + NESTED + MD5;

pub const TEMPLATED: usize = PLAIN + OPERATOR;

// The largest values of numbers: any, a guard's index and one, an operator, a StorageClass, a convention, a FuncClass,
// a VarStorageKind.
pub const ANY: usize = 4_294_967_295;

pub const GUARD: usize = 2_147_483_648;

pub const LAST_OPERATOR: usize = 74;

pub const CLASS: usize = 511;

pub const CONV: usize = 4;

pub const ACCESS: usize = 255;

pub const STORAGE: usize = 4;

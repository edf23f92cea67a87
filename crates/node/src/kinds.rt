// The kinds of nodes by name, as they stand in a table; docs/NODES.md says what each holds.
// Numbers and no enum: a cell of a lent table may hold any, `kind` promises the cell itself, and C reads these.
ghost use Rattle.std.specs.Prelude.{◌≡◌};
ghost use Rattle.node.specs.Kind.{named_numbers};

// Places of a list, which are as high as what they hold: TYPE_PLACE is the last of them.
pub const NAME_PLACE: u32 = 1;

pub const TYPE_PLACE: u32 = 2;

// A symbol and its parts.
pub const PARSE_RESULT: u32 = 3;

pub const SYMBOL: u32 = 4;

pub const OUTER_SYMBOL: u32 = 5;

// Names.
pub const MD5: u32 = 6;

pub const OPERATOR: u32 = 7;

pub const RTTI_TYPE_DESCRIPTOR: u32 = 8;

pub const RTTI_BASE_CLASS_DESCRIPTOR: u32 = 9;

pub const NON_TEMPLATE: u32 = 10;

pub const AS_INTERFACE: u32 = 11;

pub const TEMPLATE: u32 = 12;

pub const DISCRIMINATOR: u32 = 13;

pub const PARSED_NAME: u32 = 14;

pub const ANONYMOUS_ID: u32 = 15;

pub const ANONYMOUS: u32 = 16;

// Types.
pub const NONE: u32 = 17;

pub const MEMBER_FUNCTION: u32 = 18;

pub const MEMBER_FUNCTION_POINTER: u32 = 19;

pub const NON_MEMBER_FUNCTION: u32 = 20;

pub const VBTABLE: u32 = 21;

pub const VFTABLE: u32 = 22;

pub const VCALL_THUNK: u32 = 23;

pub const TEMPLATE_PARAMETER_WITH_INDEX: u32 = 24;

pub const THREAD_SAFE_STATIC_GUARD: u32 = 25;

pub const CONSTANT: u32 = 26;

pub const CONSTANT_STRING: u32 = 27;

pub const PTR: u32 = 28;

pub const REF: u32 = 29;

pub const RVALUE_REF: u32 = 30;

pub const ARRAY: u32 = 31;

pub const VAR: u32 = 32;

pub const ALIAS: u32 = 33;

pub const STRUCT: u32 = 34;

pub const UNION: u32 = 35;

pub const CLASS: u32 = 36;

pub const ENUM: u32 = 37;

// The basic types, from VOID to LDOUBLE in the order of the crate; INT64 to UINT128 have two spellings.
pub const VOID: u32 = 38;

pub const INT64: u32 = 49;

pub const UINT128: u32 = 52;

pub const LDOUBLE: u32 = 59;

pub const VAR_ARGS: u32 = 60;

pub const EMPTY_PARAMETER_PACK: u32 = 61;

pub const NULLPTR: u32 = 62;

pub const RTTI_TYPE: u32 = 63;

// The numbers above in the order of specs/Kind.antt, a line each: this holds each to its name there.
pub fn named_numbers() -> [u32; 45]
    ensures { result ≡ named_numbers }
{
    [
        NAME_PLACE,
        TYPE_PLACE,
        PARSE_RESULT,
        SYMBOL,
        OUTER_SYMBOL,
        MD5,
        OPERATOR,
        RTTI_TYPE_DESCRIPTOR,
        RTTI_BASE_CLASS_DESCRIPTOR,
        NON_TEMPLATE,
        AS_INTERFACE,
        TEMPLATE,
        DISCRIMINATOR,
        PARSED_NAME,
        ANONYMOUS_ID,
        ANONYMOUS,
        NONE,
        MEMBER_FUNCTION,
        MEMBER_FUNCTION_POINTER,
        NON_MEMBER_FUNCTION,
        VBTABLE,
        VFTABLE,
        VCALL_THUNK,
        TEMPLATE_PARAMETER_WITH_INDEX,
        THREAD_SAFE_STATIC_GUARD,
        CONSTANT,
        CONSTANT_STRING,
        PTR,
        REF,
        RVALUE_REF,
        ARRAY,
        VAR,
        ALIAS,
        STRUCT,
        UNION,
        CLASS,
        ENUM,
        VOID,
        INT64,
        UINT128,
        LDOUBLE,
        VAR_ARGS,
        EMPTY_PARAMETER_PACK,
        NULLPTR,
        RTTI_TYPE,
    ]
}

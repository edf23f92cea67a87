// The bits of the crate's DemangleFlags that a text depends on.
ghost use Rattle.std.specs.Prelude.{◌≡◌, ◌<◌};
ghost use Rattle.serializer.specs.Flags.{has};

// Whether a word of bits has this one.
pub fn has(word: u32, bit: u32) -> bool
    requires { 0 < bit }
    ensures { result ≡ has word bit }
{
    word / bit % 2 == 1
}

pub const NO_MS_KEYWORDS: u32 = 2;

pub const NO_FUNCTION_RETURNS: u32 = 4;

pub const NO_MS_THISTYPE: u32 = 32;

pub const NO_CV_THISTYPE: u32 = 64;

pub const NO_ACCESS_SPECIFIERS: u32 = 128;

pub const NO_MEMBER_TYPE: u32 = 512;

pub const MS_TYPENAMES: u32 = 1024;

pub const NAME_ONLY: u32 = 4096;

pub const NO_CLASS_TYPE: u32 = 1_048_576;

pub const SPACE_AFTER_COMMA: u32 = 2_097_152;

pub const HUG_TYPE: u32 = 4_194_304;

pub const SPACE_BEFORE_POINTER: u32 = 8_388_608;

pub const WITH_PTR64: u32 = 16_777_216;

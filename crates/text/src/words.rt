// The literals of the text, by number: operators, basic types and conventions have those that the table's cells hold,
// in their order (docs/NODES.md), so that no match stands between a cell and its word; the others follow them.
ghost use Rattle.std.specs.Prelude.{◌≡◌};
ghost use Rattle.text.specs.Emit.{lit};
ghost use Rattle.text.specs.Buffer.{Writes};
ghost use Rattle.text.specs.Words.{word};
ghost use Rattle.text.specs.Letters.{spell, piece};

use crate::buffer::Buffer;

// Operators have their own numbers, 0 to 74.
pub const GUARD: usize = 47;

pub const LITERAL: usize = 68;

pub const THREAD_GUARD: usize = 74;
// The basic types, from Void on; the four that MS_TYPENAMES renames, from Int64 on; the conventions, from Cdecl on.
pub const BASIC: usize = 75;

pub const RENAMED: usize = 97;

pub const CONVENTION: usize = 101;

pub const CONST: usize = 106;

pub const VOLATILE: usize = 107;

pub const PTR64: usize = 108;

pub const RESTRICT: usize = 109;

pub const RVALUE: usize = 110;

pub const STRUCT: usize = 111;

pub const UNION: usize = 112;

pub const CLASS: usize = 113;

pub const ENUM: usize = 114;

pub const PRIVATE_STATIC: usize = 115;

pub const PROTECTED_STATIC: usize = 116;

pub const PUBLIC_STATIC: usize = 117;

pub const THUNK: usize = 118;

pub const PRIVATE: usize = 119;

pub const PROTECTED: usize = 120;

pub const PUBLIC: usize = 121;

pub const STATIC: usize = 122;

pub const VIRTUAL: usize = 123;

pub const MEMBER: usize = 124;

pub const TEMPLATE_PARAMETER: usize = 125;

pub const TSS: usize = 126;

pub const DOTS: usize = 127;

pub const NULLPTR: usize = 128;

pub const BETWEEN: usize = 129;

pub const VBTABLE_END: usize = 130;

pub const FOR: usize = 131;

pub const FOR_END: usize = 132;

pub const FLAT: usize = 133;

pub const COLONS: usize = 134;

pub const MD5: usize = 135;

pub const ANONYMOUS: usize = 136;

pub const INVALID: usize = 137;

pub const VBTABLE: usize = 138;

pub const OPERATOR: usize = 139;

pub const TYPE_DESCRIPTOR: usize = 140;

pub const BASE_CLASS: usize = 141;

pub const BASE_CLASS_END: usize = 142;

pub const LVALUE: usize = 143;

// A piece of a word is eight of its letters as a number, the first letter lowest, and 0 where there are none. It is a
// constant of a long match, since an array of constants is built on the stack at each call, and a match of constants
// becomes a table of the compiled program. Each word has its own arm: with a range it becomes a table of jumps. The
// five share no arm: one function of word and piece would have the same arms, and a choice among the five at each call.
// The first piece of word w.
fn first(w: usize) -> u64
    ensures { result ≡ piece 0 w }
{
    match w {
        0 => 0x726f7463, // "ctor"
        1 => 0x726f7464, // "dtor"
        2 => 0x726f74617265706f, // "operator"
        3 => 0x726f74617265706f, // "operator"
        4 => 0x726f74617265706f, // "operator"
        5 => 0x726f74617265706f, // "operator"
        6 => 0x726f74617265706f, // "operator"
        7 => 0x726f74617265706f, // "operator"
        8 => 0x726f74617265706f, // "operator"
        9 => 0x726f74617265706f, // "operator"
        10 => 0x726f74617265706f, // "operator"
        11 => 0x726f74617265706f, // "operator"
        12 => 0x726f74617265706f, // "operator"
        13 => 0x726f74617265706f, // "operator"
        14 => 0x726f74617265706f, // "operator"
        15 => 0x726f74617265706f, // "operator"
        16 => 0x726f74617265706f, // "operator"
        17 => 0x726f74617265706f, // "operator"
        18 => 0x726f74617265706f, // "operator"
        19 => 0x726f74617265706f, // "operator"
        20 => 0x726f74617265706f, // "operator"
        21 => 0x726f74617265706f, // "operator"
        22 => 0x726f74617265706f, // "operator"
        23 => 0x726f74617265706f, // "operator"
        24 => 0x726f74617265706f, // "operator"
        25 => 0x726f74617265706f, // "operator"
        26 => 0x726f74617265706f, // "operator"
        27 => 0x726f74617265706f, // "operator"
        28 => 0x726f74617265706f, // "operator"
        29 => 0x726f74617265706f, // "operator"
        30 => 0x726f74617265706f, // "operator"
        31 => 0x726f74617265706f, // "operator"
        32 => 0x726f74617265706f, // "operator"
        33 => 0x726f74617265706f, // "operator"
        34 => 0x726f74617265706f, // "operator"
        35 => 0x726f74617265706f, // "operator"
        36 => 0x726f74617265706f, // "operator"
        37 => 0x726f74617265706f, // "operator"
        38 => 0x726f74617265706f, // "operator"
        39 => 0x726f74617265706f, // "operator"
        40 => 0x726f74617265706f, // "operator"
        41 => 0x726f74617265706f, // "operator"
        42 => 0x726f74617265706f, // "operator"
        43 => 0x656c626174667660, // "`vftable"
        44 => 0x656c626174627660, // "`vbtable"
        45 => 0x276c6c61637660, // "`vcall'"
        46 => 0x27666f6570797460, // "`typeof'"
        47 => 0x73206c61636f6c60, // "`local s"
        48 => 0x27676e6972747360, // "`string'"
        49 => 0x6420657361627660, // "`vbase d"
        50 => 0x20726f7463657660, // "`vector "
        51 => 0x746c756166656460, // "`default"
        52 => 0x2072616c61637360, // "`scalar "
        53 => 0x20726f7463657660, // "`vector "
        54 => 0x20726f7463657660, // "`vector "
        55 => 0x20726f7463657660, // "`vector "
        56 => 0x6c61757472697660, // "`virtual"
        57 => 0x7463657620686560, // "`eh vect"
        58 => 0x7463657620686560, // "`eh vect"
        59 => 0x7463657620686560, // "`eh vect"
        60 => 0x6f632079706f6360, // "`copy co"
        61 => 0x76206c61636f6c60, // "`local v"
        62 => 0x76206c61636f6c60, // "`local v"
        63 => 0x726f74617265706f, // "operator"
        64 => 0x726f74617265706f, // "operator"
        65 => 0x656d6563616c7060, // "`placeme"
        66 => 0x656d6563616c7060, // "`placeme"
        67 => 0x696177615f6f6320, // " co_awai"
        68 => 0x726f74617265706f, // "operator"
        69 => 0x6142204954545260, // "`RTTI Ba"
        70 => 0x6c43204954545260, // "`RTTI Cl"
        71 => 0x6f43204954545260, // "`RTTI Co"
        72 => 0x63696d616e796460, // "`dynamic"
        73 => 0x63696d616e796460, // "`dynamic"
        74 => 0x73206c61636f6c60, // "`local s"
        75 => 0x64696f76, // "void"
        76 => 0x6c6f6f62, // "bool"
        77 => 0x72616863, // "char"
        78 => 0x632064656e676973, // "signed c"
        79 => 0x64656e6769736e75, // "unsigned"
        80 => 0x74726f6873, // "short"
        81 => 0x64656e6769736e75, // "unsigned"
        82 => 0x746e69, // "int"
        83 => 0x64656e6769736e75, // "unsigned"
        84 => 0x676e6f6c, // "long"
        85 => 0x64656e6769736e75, // "unsigned"
        86 => 0x745f3436746e69, // "int64_t"
        87 => 0x745f3436746e6975, // "uint64_t"
        88 => 0x745f383231746e69, // "int128_t"
        89 => 0x5f383231746e6975, // "uint128_"
        90 => 0x745f7261686377, // "wchar_t"
        91 => 0x745f3872616863, // "char8_t"
        92 => 0x745f363172616863, // "char16_t"
        93 => 0x745f323372616863, // "char32_t"
        94 => 0x74616f6c66, // "float"
        95 => 0x656c62756f64, // "double"
        96 => 0x756f6420676e6f6c, // "long dou"
        97 => 0x3436746e695f5f, // "__int64"
        98 => 0x64656e6769736e75, // "unsigned"
        99 => 0x383231746e695f5f, // "__int128"
        100 => 0x64656e6769736e75, // "unsigned"
        101 => 0x206c636564635f5f, // "__cdecl "
        102 => 0x6c61637361705f5f, // "__pascal"
        103 => 0x6163736968745f5f, // "__thisca"
        104 => 0x6c61636474735f5f, // "__stdcal"
        105 => 0x6163747361665f5f, // "__fastca"
        106 => 0x74736e6f63, // "const"
        107 => 0x656c6974616c6f76, // "volatile"
        108 => 0x34367274705f5f, // "__ptr64"
        109 => 0x6972747365725f5f, // "__restri"
        110 => 0x2626, // "&&"
        111 => 0x20746375727473, // "struct "
        112 => 0x206e6f696e75, // "union "
        113 => 0x207373616c63, // "class "
        114 => 0x206d756e65, // "enum "
        115 => 0x3a65746176697270, // "private:"
        116 => 0x65746365746f7270, // "protecte"
        117 => 0x203a63696c627570, // "public: "
        118 => 0x3a5d6b6e7568745b, // "[thunk]:"
        119 => 0x3a65746176697270, // "private:"
        120 => 0x65746365746f7270, // "protecte"
        121 => 0x203a63696c627570, // "public: "
        122 => 0x20636974617473, // "static "
        123 => 0x206c617574726976, // "virtual "
        124 => 0x2a3a3a, // "::*"
        125 => 0x74616c706d657460, // "`templat"
        126 => 0x535354, // "TSS"
        127 => 0x2e2e2e, // "..."
        128 => 0x6c756e3a3a647473, // "std::nul"
        129 => 0x2829, // ")("
        130 => 0x7d7d27, // "'}}"
        131 => 0x6020726f667b, // "{for `"
        132 => 0x7d27, // "'}"
        133 => 0x7d7d74616c667b, // "{flat}}"
        134 => 0x3a3a, // "::"
        135 => 0x403f3f, // "??@"
        136 => 0x6f6d796e6f6e6160, // "`anonymo"
        137 => 0x64696c61766e695b, // "[invalid"
        138 => 0x656c626174627660, // "`vbtable"
        139 => 0x726f74617265706f, // "operator"
        140 => 0x2049545452603a3a, // "::`RTTI "
        141 => 0x6142204954545260, // "`RTTI Ba"
        142 => 0x2729, // ")'"
        143 => 0x26, // "&"
        _ => 0,
    }
}

// The second piece.
fn second(w: usize) -> u64
    ensures { result ≡ piece 1 w }
{
    match w {
        2 => 0x77656e20, // " new"
        3 => 0x6574656c656420, // " delete"
        4 => 0x3d, // "="
        5 => 0x3e3e, // ">>"
        6 => 0x3c3c, // "<<"
        7 => 0x21, // "!"
        8 => 0x3d3d, // "=="
        9 => 0x3d21, // "!="
        10 => 0x5d5b, // "[]"
        11 => 0x74736163, // "cast"
        12 => 0x3e2d, // "->"
        13 => 0x2a, // "*"
        14 => 0x2b2b, // "++"
        15 => 0x2d2d, // "--"
        16 => 0x2d, // "-"
        17 => 0x2b, // "+"
        18 => 0x26, // "&"
        19 => 0x2a3e2d, // "->*"
        20 => 0x2f, // "/"
        21 => 0x25, // "%"
        22 => 0x3c, // "<"
        23 => 0x3d3c, // "<="
        24 => 0x3e, // ">"
        25 => 0x3d3e, // ">="
        26 => 0x2c, // ","
        27 => 0x2928, // "()"
        28 => 0x7e, // "~"
        29 => 0x5e, // "^"
        30 => 0x7c, // "|"
        31 => 0x2626, // "&&"
        32 => 0x7c7c, // "||"
        33 => 0x3d2a, // "*="
        34 => 0x3d2b, // "+="
        35 => 0x3d2d, // "-="
        36 => 0x3d2f, // "/="
        37 => 0x3d25, // "%="
        38 => 0x3d3e3e, // ">>="
        39 => 0x3d3c3c, // "<<="
        40 => 0x3d26, // "&="
        41 => 0x3d7c, // "|="
        42 => 0x3d5e, // "^="
        43 => 0x27, // "'"
        44 => 0x27, // "'"
        47 => 0x7567206369746174, // "tatic gu"
        49 => 0x6f74637572747365, // "estructo"
        50 => 0x676e6974656c6564, // "deleting"
        51 => 0x757274736e6f6320, // " constru"
        52 => 0x676e6974656c6564, // "deleting"
        53 => 0x63757274736e6f63, // "construc"
        54 => 0x7463757274736564, // "destruct"
        55 => 0x6f63206573616276, // "vbase co"
        56 => 0x63616c7073696420, // " displac"
        57 => 0x74736e6f6320726f, // "or const"
        58 => 0x727473656420726f, // "or destr"
        59 => 0x657361627620726f, // "or vbase"
        60 => 0x6f7463757274736e, // "nstructo"
        61 => 0x27656c62617466, // "ftable'"
        62 => 0x6320656c62617466, // "ftable c"
        63 => 0x5d5b77656e20, // " new[]"
        64 => 0x5b6574656c656420, // " delete["
        65 => 0x74656c656420746e, // "nt delet"
        66 => 0x74656c656420746e, // "nt delet"
        67 => 0x74, // "t"
        68 => 0x222220, // " """
        69 => 0x7373616c43206573, // "se Class"
        70 => 0x7265694820737361, // "ass Hier"
        71 => 0x4f206574656c706d, // "mplete O"
        72 => 0x6c616974696e6920, // " initial"
        73 => 0x2074697865746120, // " atexit "
        74 => 0x6874206369746174, // "tatic th"
        78 => 0x726168, // "har"
        79 => 0x7261686320, // " char"
        81 => 0x74726f687320, // " short"
        83 => 0x746e6920, // " int"
        85 => 0x676e6f6c20, // " long"
        89 => 0x74, // "t"
        96 => 0x656c62, // "ble"
        98 => 0x3436746e695f5f20, // " __int64"
        100 => 0x3231746e695f5f20, // " __int12"
        102 => 0x20, // " "
        103 => 0x206c6c, // "ll "
        104 => 0x206c, // "l "
        105 => 0x206c6c, // "ll "
        109 => 0x7463, // "ct"
        115 => 0x2063697461747320, // " static "
        116 => 0x6974617473203a64, // "d: stati"
        117 => 0x20636974617473, // "static "
        118 => 0x20, // " "
        119 => 0x20, // " "
        120 => 0x203a64, // "d: "
        125 => 0x656d617261702d65, // "e-parame"
        128 => 0x745f7274706c, // "lptr_t"
        136 => 0x73656d616e207375, // "us names"
        137 => 0x5d, // "]"
        138 => 0x6020726f667b27, // "'{for `"
        139 => 0x20, // " "
        140 => 0x7365442065707954, // "Type Des"
        141 => 0x7373616c43206573, // "se Class"
        _ => 0,
    }
}

// The third piece.
fn third(w: usize) -> u64
    ensures { result ≡ piece 2 w }
{
    match w {
        47 => 0x27647261, // "ard'"
        49 => 0x2772, // "r'"
        50 => 0x6375727473656420, // " destruc"
        51 => 0x6f6c6320726f7463, // "ctor clo"
        52 => 0x6375727473656420, // " destruc"
        53 => 0x7265746920726f74, // "tor iter"
        54 => 0x617265746920726f, // "or itera"
        55 => 0x6f7463757274736e, // "nstructo"
        56 => 0x616d20746e656d65, // "ement ma"
        57 => 0x6920726f74637572, // "ructor i"
        58 => 0x746920726f746375, // "uctor it"
        59 => 0x757274736e6f6320, // " constru"
        60 => 0x7275736f6c632072, // "r closur"
        62 => 0x7463757274736e6f, // "onstruct"
        64 => 0x5d, // "]"
        65 => 0x7275736f6c632065, // "e closur"
        66 => 0x736f6c63205d5b65, // "e[] clos"
        69 => 0x27796172724120, // " Array'"
        70 => 0x6544207968637261, // "archy De"
        71 => 0x6f4c207463656a62, // "bject Lo"
        72 => 0x2772657a69, // "izer'"
        73 => 0x7463757274736564, // "destruct"
        74 => 0x6175672064616572, // "read gua"
        100 => 0x38, // "8"
        116 => 0x2063, // "c "
        125 => 0x726574, // "ter"
        136 => 0x2765636170, // "pace'"
        140 => 0x27726f7470697263, // "criptor'"
        141 => 0x7069726373654420, // " Descrip"
        _ => 0,
    }
}

// The fourth piece.
fn fourth(w: usize) -> u64
    ensures { result ≡ piece 3 w }
{
    match w {
        50 => 0x27726f74, // "tor'"
        51 => 0x2765727573, // "sure'"
        52 => 0x27726f74, // "tor'"
        53 => 0x27726f7461, // "ator'"
        54 => 0x27726f74, // "tor'"
        55 => 0x7461726574692072, // "r iterat"
        56 => 0x2770, // "p'"
        57 => 0x27726f7461726574, // "terator'"
        58 => 0x27726f74617265, // "erator'"
        59 => 0x65746920726f7463, // "ctor ite"
        60 => 0x2765, // "e'"
        62 => 0x75736f6c6320726f, // "or closu"
        65 => 0x2765, // "e'"
        66 => 0x27657275, // "ure'"
        70 => 0x726f747069726373, // "scriptor"
        71 => 0x27726f746163, // "cator'"
        73 => 0x27726f, // "or'"
        74 => 0x276472, // "rd'"
        141 => 0x2820746120726f74, // "tor at ("
        _ => 0,
    }
}

// The fifth piece.
fn fifth(w: usize) -> u64
    ensures { result ≡ piece 4 w }
{
    match w {
        55 => 0x27726f, // "or'"
        59 => 0x27726f746172, // "rator'"
        62 => 0x276572, // "re'"
        70 => 0x27, // "'"
        _ => 0,
    }
}

impl Buffer<'_> {
    // The letters that c spells, eight at most.
    fn put_letters(&mut self, c: u64)
        ensures { Writes (lit (spell 8 c)) self.old self.new }
    {
        let mut rest = c;
        while rest != 0 {
            self.put((rest % 256) as u8);
            rest /= 256;
        }
    }

    // Word w; nothing where there is no such word.
    pub fn put_word(&mut self, w: usize)
        ensures { Writes (lit (word w)) self.old self.new }
    {
        self.put_letters(first(w));
        let b = second(w);
        if b == 0 {
            return;
        }
        self.put_letters(b);
        let c = third(w);
        if c == 0 {
            return;
        }
        self.put_letters(c);
        self.put_letters(fourth(w));
        self.put_letters(fifth(w));
    }
}

// The pieces of a type.
ghost use Rattle.std.specs.Prelude.{◌≡◌};
ghost use Rattle.text.specs.Emit.{when, ◌⨾◌, lit};
ghost use Rattle.text.specs.Buffer.{Writes};
ghost use Rattle.text.specs.Spaces.{asks_by, space_where};
ghost use Rattle.text.specs.Words.{word};
ghost use Rattle.serializer.specs.Serializer.{comma, write_calling_conv, write_access, write_member_type, write_func_class, write_qualifier_space, write_storage_class, write_hug, write_memfn_qualifiers, write_basic, write_plain, write_opening, write_closing, write_var_kind, write_next, write_flat};
ghost use Rattle.serializer.specs.Pieces.{mark, class_name};

use crate::flags::{
    HUG_TYPE, MS_TYPENAMES, NO_ACCESS_SPECIFIERS, NO_CLASS_TYPE, NO_CV_THISTYPE, NO_MEMBER_TYPE,
    NO_MS_KEYWORDS, NO_MS_THISTYPE, SPACE_AFTER_COMMA, SPACE_BEFORE_POINTER, WITH_PTR64, has,
};
use letters::conventions::FASTCALL;
use letters::{function, storage};
use node::kinds;
use text::buffer::Buffer;
use text::spaces::Spacing;
use text::words;

pub fn put_comma(text: &mut Buffer, flags: u32)
    ensures { Writes (comma flags) text.old text.new }
{
    text.put(b',');
    if has(flags, SPACE_AFTER_COMMA) {
        text.put(b' ');
    }
}

pub fn put_comma_if(text: &mut Buffer, flags: u32, asked: bool)
    ensures { Writes (when asked (comma flags)) text.old text.new }
{
    if asked {
        put_comma(text, flags);
    }
}

// A word, where it is asked for.
pub fn put_word_if(text: &mut Buffer, asked: bool, w: usize)
    ensures { Writes (when asked (lit (word w))) text.old text.new }
{
    if asked {
        text.put_word(w);
    }
}

// A word and the space before it, where they are asked for.
pub fn put_apart_if(text: &mut Buffer, rule: Spacing, asked: bool, w: usize)
    ensures { Writes (when asked (space_where (asks_by rule) ⨾ lit (word w))) text.old text.new }
{
    if asked {
        text.put_space(rule);
        text.put_word(w);
    }
}

pub fn put_calling_conv(text: &mut Buffer, flags: u32, conv: u32)
    ensures { Writes (write_calling_conv flags conv) text.old text.new }
{
    text.put_space(Spacing::NotSet);
    if has(flags, NO_MS_KEYWORDS) || FASTCALL < conv {
        return;
    }
    text.put_word(words::CONVENTION + conv as usize);
}

// Of a function class, the access.
fn put_access(text: &mut Buffer, flags: u32, class: u32)
    ensures { Writes (write_access flags class) text.old text.new }
{
    if has(flags, NO_ACCESS_SPECIFIERS) {
        return;
    }
    put_word_if(text, has(class, function::PRIVATE), words::PRIVATE);
    put_word_if(text, has(class, function::PROTECTED), words::PROTECTED);
    put_word_if(text, has(class, function::PUBLIC), words::PUBLIC);
}

// Of a function class, whether static or virtual.
fn put_member_type(text: &mut Buffer, flags: u32, class: u32)
    ensures { Writes (write_member_type flags class) text.old text.new }
{
    if has(flags, NO_MEMBER_TYPE) {
        return;
    }
    put_word_if(text, has(class, function::STATIC), words::STATIC);
    put_word_if(text, has(class, function::VIRTUAL), words::VIRTUAL);
}

pub fn put_func_class(text: &mut Buffer, flags: u32, class: u32)
    ensures { Writes (write_func_class flags class) text.old text.new }
{
    put_word_if(text, has(class, function::THUNK), words::THUNK);
    put_access(text, flags, class);
    put_member_type(text, flags, class);
}

// The test for the space before a qualifier.
fn qualifier_space(flags: u32) -> Spacing
    ensures { space_where (asks_by result) ≡ write_qualifier_space flags }
{
    if has(flags, SPACE_BEFORE_POINTER) {
        Spacing::Ptr
    } else {
        Spacing::Any
    }
}

pub fn put_storage_class(text: &mut Buffer, flags: u32, sc: u32)
    ensures { Writes (write_storage_class flags sc) text.old text.new }
{
    let rule = qualifier_space(flags);
    put_apart_if(text, rule, has(sc, storage::CONST), words::CONST);
    put_apart_if(text, rule, has(sc, storage::VOLATILE), words::VOLATILE);
}

pub fn put_hug(text: &mut Buffer, flags: u32)
    ensures { Writes (write_hug flags) text.old text.new }
{
    if !has(flags, HUG_TYPE) {
        text.put_space(Spacing::Any);
    } else if has(flags, SPACE_BEFORE_POINTER) {
        text.put_space(Spacing::Ptr);
    }
}

pub fn put_memfn_qualifiers(text: &mut Buffer, flags: u32, sc: u32)
    ensures { Writes (write_memfn_qualifiers flags sc) text.old text.new }
{
    if has(flags, NO_MS_THISTYPE) && has(flags, NO_CV_THISTYPE) {
        return;
    }
    let wide = has(flags, WITH_PTR64) && has(sc, storage::PTR64);
    put_apart_if(text, Spacing::Any, has(sc, storage::CONST), words::CONST);
    put_apart_if(
        text,
        Spacing::Any,
        has(sc, storage::VOLATILE),
        words::VOLATILE,
    );
    put_apart_if(text, Spacing::Any, wide, words::PTR64);
    put_apart_if(
        text,
        Spacing::Any,
        has(sc, storage::RESTRICT),
        words::RESTRICT,
    );
    put_apart_if(
        text,
        Spacing::Any,
        has(sc, storage::LVALUE_QUAL),
        words::LVALUE,
    );
    put_apart_if(
        text,
        Spacing::Any,
        has(sc, storage::RVALUE_QUAL),
        words::RVALUE,
    );
}

fn put_basic(text: &mut Buffer, flags: u32, k: u32)
    ensures { Writes (write_basic flags k) text.old text.new }
{
    match k {
        kinds::INT64..=kinds::UINT128 => {
            if has(flags, MS_TYPENAMES) {
                text.put_word(words::RENAMED + (k - kinds::INT64) as usize);
            } else {
                text.put_word(words::BASIC + (k - kinds::VOID) as usize);
            }
        }
        kinds::VOID..=kinds::LDOUBLE => text.put_word(words::BASIC + (k - kinds::VOID) as usize),
        _ => {}
    }
}

// The types that hold no other.
pub fn put_plain(text: &mut Buffer, flags: u32, k: u32, m: u32, n: u32)
    ensures { Writes (write_plain flags k m n) text.old text.new }
{
    match k {
        kinds::VBTABLE..=kinds::VFTABLE => put_storage_class(text, flags, m),
        kinds::VCALL_THUNK => {
            text.put_word(words::THUNK);
            put_calling_conv(text, flags, n);
        }
        kinds::TEMPLATE_PARAMETER_WITH_INDEX => {
            text.put_word(words::TEMPLATE_PARAMETER);
            text.put_decimal(m);
            text.put(b'\'');
        }
        kinds::THREAD_SAFE_STATIC_GUARD => {
            text.put_word(words::TSS);
            text.put_decimal(m);
        }
        kinds::CONSTANT => text.put_decimal(m),
        kinds::VAR_ARGS => text.put_word(words::DOTS),
        kinds::NULLPTR => text.put_word(words::NULLPTR),
        kinds::VOID..=kinds::LDOUBLE => {
            put_basic(text, flags, k);
            put_storage_class(text, flags, m);
        }
        _ => {}
    }
}

pub fn put_opening(text: &mut Buffer, flags: u32, conv: u32)
    ensures { Writes (write_opening flags conv) text.old text.new }
{
    text.put_space(Spacing::Any);
    text.put(b'(');
    put_calling_conv(text, flags, conv);
}

pub fn put_closing(text: &mut Buffer, k: u32)
    ensures { Writes (write_closing k) text.old text.new }
{
    match k {
        kinds::MEMBER_FUNCTION => text.put(b')'),
        kinds::NON_MEMBER_FUNCTION => text.put(b')'),
        kinds::ARRAY => text.put(b')'),
        _ => {}
    }
}

// The last of the crate's VarStorageKind that has a word.
const PUBLIC_STATIC: u32 = 2;

pub fn put_var_kind(text: &mut Buffer, kind: u32)
    ensures { Writes (write_var_kind kind) text.old text.new }
{
    if PUBLIC_STATIC < kind {
        return;
    }
    text.put_word(words::PRIVATE_STATIC + kind as usize);
}

// `*`, `&` or `&&`, by the kind.
pub fn put_mark(text: &mut Buffer, k: u32)
    ensures { Writes (mark k) text.old text.new }
{
    match k {
        kinds::REF => text.put(b'&'),
        kinds::RVALUE_REF => text.put_word(words::RVALUE),
        0..=kinds::PTR => text.put(b'*'),
        _ => {}
    }
}

pub fn put_class_name(text: &mut Buffer, flags: u32, k: u32)
    ensures { Writes (class_name flags k) text.old text.new }
{
    if has(flags, NO_CLASS_TYPE) {
        return;
    }
    match k {
        kinds::STRUCT..=kinds::ENUM => text.put_word(words::STRUCT + (k - kinds::STRUCT) as usize),
        _ => {}
    }
}

// A comma and a number.
pub fn put_next(text: &mut Buffer, flags: u32, n: u32)
    ensures { Writes (write_next flags n) text.old text.new }
{
    put_comma(text, flags);
    text.put_decimal(n);
}

// What follows the name of a thunk.
pub fn put_flat(text: &mut Buffer, flags: u32, n: u32)
    ensures { Writes (write_flat flags n) text.old text.new }
{
    text.put(b'{');
    text.put_decimal(n);
    put_comma(text, flags);
    text.put_word(words::FLAT);
}

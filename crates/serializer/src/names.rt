// The pieces of a name.
ghost use Rattle.text.specs.Emit.{lit, put, unless};
ghost use Rattle.text.specs.Buffer.{Writes};
ghost use Rattle.text.specs.Spaces.{or};
ghost use Rattle.meaning.specs.Tree.{part};
ghost use Rattle.serializer.specs.Serializer.{write_guard, write_operator_name, write_spaced_operator, write_base_class_descriptor, write_plain_name, write_name_space};

use crate::flags::{SPACE_BEFORE_POINTER, has};
use crate::types::put_next;
use node::kinds;
use operators::{LOCAL_STATIC_GUARD, LOCAL_STATIC_THREAD_GUARD};
use text::buffer::Buffer;
use text::spaces::Spacing;
use text::words;

// The n bytes of the symbol from s on.
pub fn put_part(symbol: &[u8], text: &mut Buffer, s: usize, n: usize)
    ensures { Writes (lit (part symbol.now s n)) text.old text.new }
{
    text.put_bytes(meaning::part_of(symbol, s, n));
}

// The names that hold no other; the bytes are the n from m on.
pub fn put_plain_name(symbol: &[u8], text: &mut Buffer, k: u32, m: u32, n: u32)
    ensures { Writes (write_plain_name k m (part symbol.now m n)) text.old text.new }
{
    match k {
        kinds::NON_TEMPLATE => put_part(symbol, text, m as usize, n as usize),
        kinds::MD5 => {
            text.put_word(words::MD5);
            put_part(symbol, text, m as usize, n as usize);
            text.put(b'@');
        }
        kinds::AS_INTERFACE => {
            text.put(b'[');
            put_part(symbol, text, m as usize, n as usize);
            text.put(b']');
        }
        kinds::DISCRIMINATOR => {
            text.put(b'`');
            text.put_decimal(m);
            text.put(b'\'');
        }
        kinds::ANONYMOUS_ID..=kinds::ANONYMOUS => text.put_word(words::ANONYMOUS),
        _ => {}
    }
}

// A guard's index, given with one added and 0 for none, as the table keeps it.
pub fn put_guard(text: &mut Buffer, g: u32)
    ensures { Writes (write_guard g) text.old text.new }
{
    if g == 0 {
        return;
    }
    text.put(b'{');
    text.put_unsigned(g - 1);
    text.put(b'}');
}

// The last operator that is its word alone.
const LAST_PLAIN: u32 = LOCAL_STATIC_THREAD_GUARD - 1;

pub fn put_operator_name(text: &mut Buffer, g: u32, op: u32)
    ensures { Writes (write_operator_name g op) text.old text.new }
{
    match op {
        LOCAL_STATIC_GUARD => {
            text.put_word(words::GUARD);
            put_guard(text, g);
        }
        LOCAL_STATIC_THREAD_GUARD => {
            text.put_word(words::THREAD_GUARD);
            put_guard(text, g);
        }
        0..=LAST_PLAIN => text.put_word(op as usize),
        _ => {}
    }
}

// An operator, and the space before it.
pub fn put_operator(text: &mut Buffer, g: u32, op: u32)
    ensures { Writes (write_spaced_operator g op) text.old text.new }
{
    text.put_space(Spacing::Any);
    put_operator_name(text, g, op);
}

pub fn put_base_class(
    text: &mut Buffer,
    flags: u32,
    nv: u32,
    vbptr: u32,
    vbtable: u32,
    attributes: u32,
)
    ensures { Writes (write_base_class_descriptor flags nv vbptr vbtable attributes) text.old text.new }
{
    text.put_word(words::BASE_CLASS);
    text.put_decimal(nv);
    put_next(text, flags, vbptr);
    put_next(text, flags, vbtable);
    put_next(text, flags, attributes);
    text.put_word(words::BASE_CLASS_END);
}

// `::`, but not after an empty scope or a literal operator.
pub fn put_colons(text: &mut Buffer, alone: bool, literal: bool)
    ensures { Writes (unless (or alone literal) (put "::")) text.old text.new }
{
    if alone || literal {
        return;
    }
    text.put_word(words::COLONS);
}

// The space before a symbol's name.
pub fn put_name_space(text: &mut Buffer, flags: u32)
    ensures { Writes (write_name_space flags) text.old text.new }
{
    if has(flags, SPACE_BEFORE_POINTER) {
        text.put_space(Spacing::Ptr);
    } else {
        text.put_space(Spacing::Pre);
    }
}

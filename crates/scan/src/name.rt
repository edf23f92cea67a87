// The parts of names: up to the next `@`, hex digits, an MD5 name.
ghost use Rattle.std.specs.Prelude.{◌≡◌, drop};
ghost use Rattle.scan.specs.Name.{string_from, read_string, read_hex_digits, read_md5_name};

use crate::cursor::{Span, consume, is_hex, rest};

// How many hex digits an MD5 name has.
const MD5_DIGITS: usize = 32;

// How many bytes are compared at once.
const BLOCK: usize = 16;

// Byte by byte: n bytes are passed, and the next `@` is taken too.
fn search(t: &[u8], from: usize) -> Span
    ensures { result ≡ string_from from (drop from t.now) }
{
    match rest(t, from).iter().position(|&c| c == b'@') {
        Some(n) => Ok(from + n + 1),
        None => Err(0),
    }
}

// Past the blocks that have no `@`, then byte by byte: on long names a fifth of the instructions that bytes alone take
// (docs/SPEED.md, the search for `@`).
fn search_blocks(t: &[u8]) -> Span
    ensures { result ≡ read_string t.now }
{
    let mut i = 0;
    while BLOCK <= t.len() - i {
        let end = i + BLOCK;
        if t[i..end].contains(&b'@') {
            break;
        }
        i = end;
    }
    search(t, i)
}

// Up to the next `@`, which is taken too. Nine names of ten end in the first block: there byte by byte is quicker, and
// the block's length is a constant, so that the compiler writes its bytes out.
pub fn read_string(s: &[u8], at: usize) -> Span
    ensures { result ≡ read_string (drop at s.now) }
{
    let t = rest(s, at);
    if BLOCK <= t.len() {
        if let Ok(n) = search(&t[..BLOCK], 0) {
            return Ok(n);
        }
    }
    search_blocks(t)
}

// How many hex digits stand here: the id of an anonymous namespace.
pub fn read_hex_digits(s: &[u8], at: usize) -> usize
    ensures { result ≡ read_hex_digits (drop at s.now) }
{
    rest(s, at).iter().take_while(|c| is_hex(**c)).count()
}

pub fn read_md5_name(s: &[u8], at: usize) -> Span
    ensures { result ≡ read_md5_name (drop at s.now) }
{
    let n = read_hex_digits(s, at);
    if n != MD5_DIGITS {
        return Err(n);
    }
    if consume(b"@", s, at + MD5_DIGITS) {
        Ok(MD5_DIGITS + 1)
    } else {
        Err(MD5_DIGITS)
    }
}

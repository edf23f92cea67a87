// Encoded strings: a length, a checksum, and characters.
ghost use Rattle.std.specs.Prelude.{◌≡◌, List, ◌∷◌, ℕ, ◌≤◌, length, drop};
ghost use Rattle.strings.specs.Encoded.{is_plain, character, escape, hex_pair, low_letter, kept, characters, strung, read_encoded_string};

use scan::cursor::{Leaf, Span};
use scan::number::read_number;

// The declared length as its 32 bits, where the characters start, and the bytes taken in all.
#[derive(Clone, Copy)]
pub struct Chars {
    pub length: u32,
    pub start: usize,
    pub taken: usize,
}

// Or the bytes taken before the refusal.
pub type Encoded = Result<Chars, usize>;

// What `?` and a digit stand for.
const ESCAPED: [u8; 10] = *b",/\\:. \n\t'-";

// The low letter of `?$`, behind the high one.
fn read_low_letter(s: &[u8], at: usize, high: u8) -> Leaf
    requires { (65 ≤ high) × (high ≤ 80) }
    ensures { result ≡ low_letter high (drop at s.now) }
{
    if s.len() <= at {
        return Err(3);
    }
    let c = s[at];
    match c {
        b'A'..=b'P' => Ok((((high - b'A') as u32) * 16 + ((c - b'A') as u32), 4)),
        _ => Err(4),
    }
}

// The two letters behind `?$`.
fn read_hex_pair(s: &[u8], at: usize) -> Leaf
    ensures { result ≡ hex_pair (drop at s.now) }
{
    if s.len() <= at {
        return Err(2);
    }
    let c = s[at];
    match c {
        b'A'..=b'P' => read_low_letter(s, at + 1, c),
        _ => Err(3),
    }
}

fn escape_letter(c: u8) -> Leaf
    requires { c ≡ 36 → ⊥ }
    ensures { (rest : List ℕ) → result ≡ escape (c ∷ rest) }
{
    match c {
        b'A'..=b'Z' => Ok(((c + 160) as u32, 2)),
        b'a'..=b'z' => Ok(((c + 128) as u32, 2)),
        b'0'..=b'9' => Ok((ESCAPED[(c - b'0') as usize] as u32, 2)),
        _ => Err(2),
    }
}

// Behind `?`.
fn read_escape(s: &[u8], at: usize) -> Leaf
    ensures { result ≡ escape (drop at s.now) }
{
    if s.len() <= at {
        return Err(1);
    }
    let c = s[at];
    if c == b'$' {
        read_hex_pair(s, at + 1)
    } else {
        escape_letter(c)
    }
}

// What stands for itself.
fn is_plain(c: u8) -> bool
    ensures { result ≡ is_plain c }
{
    matches!(c, b'0'..=b'9' | b'a'..=b'z' | b'A'..=b'Z' | b'_' | b'$')
}

// One character: its byte and the bytes taken.
pub fn read_character(s: &[u8], at: usize) -> Leaf
    ensures { result ≡ character (drop at s.now) }
{
    if s.len() <= at {
        return Err(0);
    }
    let c = s[at];
    if is_plain(c) {
        return Ok((c as u32, 1));
    }
    if c == b'?' {
        read_escape(s, at + 1)
    } else {
        Err(1)
    }
}

fn read_characters(s: &[u8], at: usize, count: usize) -> Span
    requires { at ≤ length s.now }
    ensures { result ≡ characters count 0 (drop at s.now) }
{
    let mut i = at;
    for _ in 0..count {
        match read_character(s, i) {
            Ok((_, n)) => i += n,
            Err(n) => return Err(i - at + n),
        }
    }
    Ok(i - at)
}

// How many characters are kept of a declared length: at most 32, none of a negative one.
fn kept_count(declared: u32, width: u8) -> usize
    ensures { result ≡ kept declared width }
{
    if 0x8000_0000 <= declared {
        return 0;
    }
    declared.min(32 * (width as u32)) as usize
}

// The characters, behind the length and the checksum.
fn read_strung(s: &[u8], at: usize, start: usize, declared: u32, width: u8) -> Encoded
    requires { (start ≤ at) × (at ≤ length s.now) }
    ensures { result ≡ strung declared start (characters (kept declared width) 0 (drop at s.now)) }
{
    let chars = read_characters(s, at, kept_count(declared, width));
    match chars {
        Ok(n) => Ok(Chars {
            length: declared,
            start,
            taken: start + n,
        }),
        Err(n) => Err(start + n),
    }
}

pub fn read_encoded_string(s: &[u8], at: usize, width: u8) -> Encoded
    ensures { result ≡ read_encoded_string width (drop at s.now) }
{
    let (length, a) = read_number(s, at)?;
    match read_number(s, at + a) {
        Ok((_, b)) => read_strung(s, at + a + b, a + b, length, width),
        Err(b) => Err(a + b),
    }
}

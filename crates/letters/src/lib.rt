// Letters that name a convention, a class or qualifiers. Values are the crate's bits and the places of its enums.
#![tactic(auto)]

ghost use Rattle.std.specs.Prelude.{◌≡◌, List, ◌∷◌, ℕ, ◌≤◌, length, drop};
ghost use Rattle.scan.specs.Number.{read_number};
ghost use Rattle.letters.specs.Classes.{read_calling_conv, func_class_letter, adjusted, read_func_class, read_storage_class, read_qualifier, read_storage_class_for_return, optional, ref_qualifier, read_func_qualifiers, read_string_width, read_guard_marker};

pub mod conventions;
pub mod function;
pub mod storage;

use crate::conventions::{CDECL, FASTCALL, PASCAL, STDCALL, THISCALL};
use crate::function::{FAR, GLOBAL, PRIVATE, PROTECTED, PUBLIC, STATIC, THUNK, VIRTUAL};
use crate::storage::{LVALUE_QUAL, PTR64, RESTRICT, RVALUE_QUAL, UNALIGNED};
use scan::cursor::{Leaf, consume};
use scan::number::read_number;

// What letters that may be missing say, as bits of StorageClass, and how many bytes they take. They are never refused.
#[derive(Clone, Copy)]
pub struct Class {
    pub bits: u32,
    pub taken: usize,
}

// No letter stands here.
const ABSENT: Class = Class { bits: 0, taken: 0 };

// One `match` on the byte for each kind of letter, as here, is the form in which their outcomes are to be read.
fn calling_conv(c: u8) -> Leaf
    ensures { (rest : List ℕ) → result ≡ read_calling_conv (c ∷ rest) }
{
    match c {
        b'A'..=b'B' => Ok((CDECL, 1)),
        b'C' => Ok((PASCAL, 1)),
        b'E' => Ok((THISCALL, 1)),
        b'G' => Ok((STDCALL, 1)),
        b'I' => Ok((FASTCALL, 1)),
        _ => Err(1),
    }
}

pub fn read_calling_conv(s: &[u8], at: usize) -> Leaf
    ensures { result ≡ read_calling_conv (drop at s.now) }
{
    if at < s.len() {
        calling_conv(s[at])
    } else {
        Err(0)
    }
}

fn func_class(c: u8) -> Leaf
    ensures { (rest : List ℕ) → result ≡ func_class_letter (c ∷ rest) }
{
    match c {
        b'A' => Ok((PRIVATE, 1)),
        b'B' => Ok((PRIVATE | FAR, 1)),
        b'C'..=b'D' => Ok((PRIVATE | STATIC, 1)),
        b'E'..=b'F' => Ok((PRIVATE | VIRTUAL, 1)),
        b'G' => Ok((PRIVATE | VIRTUAL | THUNK, 1)),
        b'H' => Ok((PRIVATE | VIRTUAL | FAR | THUNK, 1)),
        b'I' => Ok((PROTECTED, 1)),
        b'J' => Ok((PROTECTED | FAR, 1)),
        b'K' => Ok((PROTECTED | STATIC, 1)),
        b'L' => Ok((PROTECTED | STATIC | FAR, 1)),
        b'M' => Ok((PROTECTED | VIRTUAL, 1)),
        b'N' => Ok((PROTECTED | VIRTUAL | FAR, 1)),
        b'O' => Ok((PROTECTED | VIRTUAL | THUNK, 1)),
        b'P' => Ok((PROTECTED | VIRTUAL | FAR | THUNK, 1)),
        b'Q' => Ok((PUBLIC, 1)),
        b'R' => Ok((PUBLIC | FAR, 1)),
        b'S' => Ok((PUBLIC | STATIC, 1)),
        b'T' => Ok((PUBLIC | STATIC | FAR, 1)),
        b'U' => Ok((PUBLIC | VIRTUAL, 1)),
        b'V' => Ok((PUBLIC | VIRTUAL | FAR, 1)),
        b'W' => Ok((PUBLIC | VIRTUAL | THUNK, 1)),
        b'X' => Ok((PUBLIC | VIRTUAL | FAR | THUNK, 1)),
        b'Y' => Ok((GLOBAL, 1)),
        b'Z' => Ok((GLOBAL | FAR, 1)),
        _ => Err(1),
    }
}

// The adjustment of a thunk stands behind its letter and is not kept.
fn read_adjustment(s: &[u8], at: usize, bits: u32) -> Leaf
    requires { (1 ≤ at) × (at ≤ length s.now) }
    ensures { result ≡ adjusted bits (read_number (drop at s.now)) }
{
    let number = read_number(s, at);
    match number {
        Ok((_, n)) => Ok((bits, n + 1)),
        Err(n) => Err(n + 1),
    }
}

pub fn read_func_class(s: &[u8], at: usize) -> Leaf
    ensures { result ≡ read_func_class (drop at s.now) }
{
    if s.len() <= at {
        return Err(0);
    }
    let (bits, n) = func_class(s[at])?;
    if THUNK <= bits {
        read_adjustment(s, at + 1, bits)
    } else {
        Ok((bits, n))
    }
}

// A letter of StorageClass: const, volatile and far are its lowest bits. `qualifier` has fewer: the crate has two lists,
// each read by a match that mirrors it. The arms have literals, as those of forms, and for the reason in its start.rt.
fn storage_class(c: u8) -> Class
    ensures { (rest : List ℕ) → result ≡ read_storage_class (c ∷ rest) }
{
    match c {
        b'A'..=b'H' => Class {
            bits: (c - b'A') as u32,
            taken: 1,
        },
        b'Q'..=b'T' => Class {
            bits: (c - b'Q') as u32,
            taken: 1,
        },
        _ => ABSENT,
    }
}

pub fn read_storage_class(s: &[u8], at: usize) -> Class
    ensures { result ≡ read_storage_class (drop at s.now) }
{
    if at < s.len() {
        storage_class(s[at])
    } else {
        ABSENT
    }
}

fn qualifier(c: u8) -> Class
    ensures { (rest : List ℕ) → result ≡ read_qualifier (c ∷ rest) }
{
    match c {
        b'A'..=b'D' => Class {
            bits: (c - b'A') as u32,
            taken: 1,
        },
        b'Q'..=b'T' => Class {
            bits: (c - b'Q') as u32,
            taken: 1,
        },
        _ => ABSENT,
    }
}

pub fn read_qualifier(s: &[u8], at: usize) -> Class
    ensures { result ≡ read_qualifier (drop at s.now) }
{
    if at < s.len() {
        qualifier(s[at])
    } else {
        ABSENT
    }
}

// The letter behind a return's `?`.
fn return_class(c: u8) -> Leaf
    ensures { (rest : List ℕ) → result ≡ read_storage_class_for_return (63 ∷ c ∷ rest) }
{
    match c {
        b'A'..=b'D' => Ok(((c - b'A') as u32, 2)),
        _ => Err(2),
    }
}

pub fn read_storage_class_for_return(s: &[u8], at: usize) -> Leaf
    ensures { result ≡ read_storage_class_for_return (drop at s.now) }
{
    if s.len() <= at {
        return Ok((0, 0));
    }
    if s[at] != b'?' {
        return Ok((0, 0));
    }
    let next = at + 1;
    if next < s.len() {
        return_class(s[next])
    } else {
        Err(1)
    }
}

// One optional letter of a function's qualifiers.
fn optional_letter(s: &[u8], at: usize, letter: u8, bits: u32) -> Class
    requires { at ≤ length s.now }
    ensures { result ≡ optional letter bits (drop at s.now) }
{
    if at < s.len() {
        if s[at] == letter {
            return Class { bits, taken: 1 };
        }
    }
    ABSENT
}

// `G` or `H`: the reference qualifier.
fn ref_qualifier(s: &[u8], at: usize) -> Class
    requires { at ≤ length s.now }
    ensures { result ≡ ref_qualifier (drop at s.now) }
{
    if s.len() <= at {
        return ABSENT;
    }
    let c = s[at];
    match c {
        b'G' => Class {
            bits: LVALUE_QUAL,
            taken: 1,
        },
        b'H' => Class {
            bits: RVALUE_QUAL,
            taken: 1,
        },
        _ => ABSENT,
    }
}

pub fn read_func_qualifiers(s: &[u8], at: usize) -> Class
    ensures { result ≡ read_func_qualifiers (drop at s.now) }
{
    if s.len() <= at {
        return ABSENT;
    }
    let ptr64 = optional_letter(s, at, b'E', PTR64);
    let a = ptr64.taken;
    let restrict = optional_letter(s, at + a, b'I', RESTRICT);
    let b = a + restrict.taken;
    let unaligned = optional_letter(s, at + b, b'F', UNALIGNED);
    let c = b + unaligned.taken;
    let reference = ref_qualifier(s, at + c);
    let d = c + reference.taken;
    let rest = read_qualifier(s, at + d);
    Class {
        bits: ptr64.bits + restrict.bits + unaligned.bits + reference.bits + rest.bits,
        taken: d + rest.taken,
    }
}

fn string_width(c: u8) -> Leaf
    ensures { (rest : List ℕ) → result ≡ read_string_width (c ∷ rest) }
{
    match c {
        b'0'..=b'1' => Ok(((c - 47) as u32, 1)),
        _ => Err(1),
    }
}

// The bytes of a character of an encoded string.
pub fn read_string_width(s: &[u8], at: usize) -> Leaf
    ensures { result ≡ read_string_width (drop at s.now) }
{
    if at < s.len() {
        string_width(s[at])
    } else {
        Err(0)
    }
}

// Behind the name of a guard.
pub fn read_guard_marker(s: &[u8], at: usize) -> Leaf
    ensures { result ≡ read_guard_marker (drop at s.now) }
{
    if consume(b"4IA", s, at) {
        return Ok((0, 3));
    }
    if consume(b"5", s, at) {
        Ok((1, 1))
    } else {
        Err(0)
    }
}

// Numbers of 32 bits: those of `read_number`, and the decimal ones of a guard.
ghost use Rattle.std.specs.Prelude.{◌≡◌, ◌≤◌, ◌+◌, ◌*◌, ◌-◌, ◌%◌, ◌^◌, length, drop, None};
ghost use Rattle.scan.specs.Number.{signed, sign, digit_in, digits, magnitude, read_number, read_unsigned, read_guard_number};

use crate::cursor::{Leaf, get, is_digit};

// The bits, negated where the number is: negation wraps.
fn signed_bits(neg: bool, v: u32) -> u32
    ensures { result ≡ signed neg v }
{
    if neg { v.wrapping_neg() } else { v }
}

// The value with one digit more: bits beyond 32 are dropped.
fn shifted(v: u32, base: u32, digit: u32) -> u32
    ensures { result ≡ (v * base + digit) % 2 ^ 32 }
{
    v.wrapping_mul(base).wrapping_add(digit)
}

// The bytes before the magnitude: the `?`.
fn sign_len(neg: bool) -> usize
    ensures { result ≡ sign neg }
{
    usize::from(neg)
}

// The digit that a byte stands for, where the lowest of `base` digits is the byte `low`. The compiler makes one test of
// the two; `checked_sub` with `?` takes more instructions a digit.
fn digit_in(c: u8, low: u8, base: u8) -> Option<u8>
    ensures { result ≡ digit_in low base c }
{
    if low <= c && c - low < base {
        Some(c - low)
    } else {
        None
    }
}

// Digits up to `@`, behind bytes that are taken already. A bad number is refused at the byte that does not belong.
// The end is asked for where no digit stands, so that a digit costs no test of it.
fn read_digits(s: &[u8], at: usize, taken: usize, low: u8, base: u8, first: u32) -> Leaf
    requires within { at + taken ≤ length s.now }
    requires end_is_no_digit { digit_in low base 64 ≡ None }
    ensures { result ≡ digits low base taken first (drop (at + taken) s.now) }
{
    let mut v = first;
    let mut n = taken;
    loop {
        let Some(c) = get(s, at + n) else {
            break Err(n);
        };
        match digit_in(c, low, base) {
            Some(d) => {
                v = shifted(v, base as u32, d as u32);
                n += 1;
            }
            None if c == b'@' => break Ok((v, n + 1)),
            None => break Err(n),
        }
    }
}

// A digit, which stands for one more than it says, or the letters A to P, which are hex digits.
fn read_magnitude(s: &[u8], at: usize, neg: bool) -> Leaf
    requires { at + sign neg ≤ length s.now }
    ensures { result ≡ magnitude neg (drop (at + sign neg) s.now) }
{
    let before = sign_len(neg);
    let c = get(s, at + before).ok_or(before)?;
    if is_digit(c) {
        return Ok((signed_bits(neg, (c - 47) as u32), before + 1));
    }
    let (v, n) = read_digits(s, at, before, b'A', 16, 0)?;
    Ok((signed_bits(neg, v), n))
}

pub fn read_number(s: &[u8], at: usize) -> Leaf
    ensures { result ≡ read_number (drop at s.now) }
{
    let c = get(s, at).ok_or(0usize)?;
    read_magnitude(s, at, c == b'?')
}

// A negative number is refused behind it.
pub fn read_unsigned(s: &[u8], at: usize) -> Leaf
    ensures { result ≡ read_unsigned (drop at s.now) }
{
    let (v, n) = read_number(s, at)?;
    if v < 0x8000_0000 { Ok((v, n)) } else { Err(n) }
}

// The number of a thread safe guard, behind `?$TSS`.
pub fn read_guard_number(s: &[u8], at: usize) -> Leaf
    ensures { result ≡ read_guard_number (drop at s.now) }
{
    match get(s, at).ok_or(0usize)? {
        c @ b'0'..=b'9' => read_digits(s, at, 1, b'0', 10, (c - b'0') as u32),
        _ => Err(0),
    }
}

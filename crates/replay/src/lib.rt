// What the programs that replay cases share: the input read as a whole, and numbers in digits.
#![tactic(auto)]

ghost use Rattle.std.specs.Prelude.{◌≡◌, ◌^◌, ◌<◌, ◌≤◌, length, IfOk};
ghost use Rattle.replay.specs.Digits.{digit, number_of};

use std::io;
use std::io::{Read, Stdin};

// Reads until the buffer is full or the input ends; how many bytes came. Nothing of the library does: `read_exact`
// fails at a shorter input, and a `BufReader` is on the heap.
pub fn read_full(input: &mut Stdin, buffer: &mut [u8]) -> io::Result<usize>
    ensures { IfOk result (λ n. n ≤ length buffer.new) }
{
    let mut done = 0;
    while done < buffer.len() {
        let n = input.read(&mut buffer[done..])?;
        if n == 0 {
            break;
        }
        done += n;
    }
    Ok(done)
}

// A decimal digit's value, and 0 for any other byte.
fn digit_value(c: u8) -> usize
    ensures { result ≡ digit c }
{
    match c {
        b'0'..=b'9' => (c - b'0') as usize,
        _ => 0,
    }
}

// The number that the digits stand for.
pub fn number(digits: &[u8]) -> usize
    requires { length digits.now ≤ 8 }
    ensures value { result ≡ number_of digits.now }
    ensures below { result < 10 ^ length digits.now }
{
    let mut n = 0;
    for c in digits {
        n = n * 10 + digit_value(*c);
    }
    n
}

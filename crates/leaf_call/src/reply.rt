// One shape for every leaf's answer.
ghost use Rattle.std.specs.Prelude.{◌≡◌};
ghost use Rattle.leaf_call.specs.Answers.{accepted, refusal, of_found, of_span, of_leaf, of_class, of_encoded};

use letters::Class;
use scan::cursor::{Leaf, Span};
use strings::encoded::Encoded;

// The scope's number (0 or 3; 7 for no such leaf), the bytes taken by then, the value, and where a string's characters start.
#[derive(Clone, Copy, PartialEq, Eq)]
pub struct Reply {
    pub number: u32,
    pub taken: usize,
    pub value: usize,
    pub start: usize,
}

pub fn accepted_as(value: usize, taken: usize) -> Reply
    ensures { result ≡ accepted value taken }
{
    Reply {
        number: 0,
        taken,
        value,
        start: 0,
    }
}

pub fn refused(number: u32, taken: usize) -> Reply
    ensures { result ≡ refusal number taken }
{
    Reply {
        number,
        taken,
        value: 0,
        start: 0,
    }
}

// Functions with names and no `From`: a count, a length and a span are all numbers, and turn into different replies.
pub fn of_found(a: Option<u8>) -> Reply
    ensures { result ≡ of_found a }
{
    match a {
        Some(b) => accepted_as(b as usize, 1),
        None => refused(3, 0),
    }
}

// The value is the length of the name, without its `@`.
pub fn of_span(a: Span) -> Reply
    ensures { result ≡ of_span a }
{
    match a {
        Ok(n) => {
            if n == 0 {
                accepted_as(0, 0)
            } else {
                accepted_as(n - 1, n)
            }
        }
        Err(n) => refused(3, n),
    }
}

pub fn of_count(n: usize) -> Reply
    ensures { result ≡ accepted n n }
{
    accepted_as(n, n)
}

pub fn of_leaf(a: Leaf) -> Reply
    ensures { result ≡ of_leaf a }
{
    match a {
        Ok((v, n)) => accepted_as(v as usize, n),
        Err(n) => refused(3, n),
    }
}

pub fn of_class(a: Class) -> Reply
    ensures { result ≡ of_class a }
{
    accepted_as(a.bits as usize, a.taken)
}

pub fn of_encoded(a: Encoded) -> Reply
    ensures { result ≡ of_encoded a }
{
    match a {
        Ok(c) => Reply {
            number: 0,
            taken: c.taken,
            value: c.length as usize,
            start: c.start,
        },
        Err(n) => refused(3, n),
    }
}

// The cursor: a byte, a literal, a digit.
ghost use Rattle.std.specs.Prelude.{◌≡◌, ◌<◌, drop};
ghost use Rattle.scan.specs.Bytes.{starts, is_digit, is_hex};
ghost use Rattle.scan.specs.Cursor.{get_byte, expect_literal, read_digit, read_hex_digit};

// What a leaf reads: a value and how many bytes it took, or how many it took before it was refused.
pub type Leaf = Result<(u32, usize), usize>;

// The same where the bytes themselves are the value.
pub type Span = Result<usize, usize>;

pub fn get(s: &[u8], at: usize) -> Option<u8>
    ensures { result ≡ get_byte (drop at s.now) }
{
    s.get(at).copied()
}

// What remains of the symbol at a place; past the end nothing does.
pub(crate) fn rest(s: &[u8], at: usize) -> &[u8]
    ensures { result.now ≡ drop at s.now }
{
    &s[at.min(s.len())..]
}

// Whether the literal stands here: the caller then goes on behind it.
pub fn consume(literal: &[u8], s: &[u8], at: usize) -> bool
    ensures { result ≡ starts literal.now (drop at s.now) }
{
    rest(s, at).starts_with(literal)
}

pub fn expect(literal: &[u8], s: &[u8], at: usize) -> Span
    ensures { result ≡ expect_literal literal.now (drop at s.now) }
{
    if consume(literal, s, at) {
        Ok(literal.len())
    } else {
        Err(0)
    }
}

pub fn read_digit(s: &[u8], at: usize) -> Option<u8>
    ensures { result ≡ read_digit (drop at s.now) }
{
    match get(s, at)? {
        c @ b'0'..=b'9' => Some(c - b'0'),
        _ => None,
    }
}

pub(crate) fn is_digit(c: u8) -> bool
    ensures { result ≡ is_digit c }
{
    c.is_ascii_digit()
}

pub fn is_hex(c: u8) -> bool
    ensures { result ≡ is_hex c }
{
    c.is_ascii_hexdigit()
}

pub fn read_hex_digit(s: &[u8], at: usize) -> Option<u8>
    ensures { result ≡ read_hex_digit (drop at s.now) }
{
    let c = get(s, at)?;
    if is_hex(c) { Some(c) } else { None }
}

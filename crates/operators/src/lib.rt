// The letters of `read_special_name`, behind `?`. Operators are numbered in the order of the crate's enum,
// but for the two RTTI descriptors with operands, which come last.
#![tactic(auto)]

ghost use Rattle.std.specs.Prelude.{◌≡◌, List, ◌∷◌, ℕ, drop};
ghost use Rattle.operators.specs.Operators.{read_operator};

use scan::cursor::Leaf;

// The operators that code asks for.
// Numbers and no enum: they stand in the table's cells, which C reads (docs/NODES.md).
pub const CTOR: u32 = 0;

pub const DTOR: u32 = 1;

pub const CONVERSION: u32 = 11;

pub const VBTABLE: u32 = 44;

pub const LOCAL_STATIC_GUARD: u32 = 47;

pub const LITERAL_OPERATOR_NAME: u32 = 68;

pub const LOCAL_STATIC_THREAD_GUARD: u32 = 74;

pub const RTTI_TYPE_DESCRIPTOR: u32 = 75;

pub const RTTI_BASE_CLASS_DESCRIPTOR: u32 = 76;

// `?x`: here and below one match on the byte for each group of letters, the form in which the scope has them.
fn operator(c: u8) -> Leaf
    requires { c ≡ 95 → ⊥ }
    ensures { (rest : List ℕ) → result ≡ read_operator (c ∷ rest) }
{
    match c {
        b'0'..=b'9' => Ok(((c - b'0') as u32, 1)),
        b'A'..=b'Z' => Ok(((c - 55) as u32, 1)),
        _ => Err(1),
    }
}

// `?_x`
fn under_operator(c: u8) -> Leaf
    requires { (c ≡ 82 → ⊥) × (c ≡ 95 → ⊥) }
    ensures { (rest : List ℕ) → result ≡ read_operator (95 ∷ c ∷ rest) }
{
    match c {
        b'0'..=b'9' => Ok(((c - 12) as u32, 2)),
        b'A'..=b'O' => Ok(((c - 19) as u32, 2)),
        b'S'..=b'V' => Ok(((c - 22) as u32, 2)),
        b'X'..=b'Y' => Ok(((c - 23) as u32, 2)),
        _ => Err(2),
    }
}

// `?__x`: a wrong letter is not taken
fn double_under_operator(c: u8) -> Leaf
    ensures { (rest : List ℕ) → result ≡ read_operator (95 ∷ 95 ∷ c ∷ rest) }
{
    match c {
        b'L' => Ok((67, 3)),
        b'K' => Ok((LITERAL_OPERATOR_NAME, 3)),
        b'E' => Ok((72, 3)),
        b'F' => Ok((73, 3)),
        b'J' => Ok((LOCAL_STATIC_THREAD_GUARD, 3)),
        _ => Err(2),
    }
}

// `?_Rx`
fn rtti_operator(c: u8) -> Leaf
    ensures { (rest : List ℕ) → result ≡ read_operator (95 ∷ 82 ∷ c ∷ rest) }
{
    match c {
        b'0'..=b'1' => Ok(((c + 27) as u32, 3)),
        b'2'..=b'4' => Ok(((c + 19) as u32, 3)),
        _ => Err(3),
    }
}

// Behind `?_`.
fn read_under_operator(s: &[u8], at: usize) -> Leaf
    ensures { result ≡ read_operator (95 ∷ drop at s.now) }
{
    if s.len() <= at {
        return Err(1);
    }
    let next = at + 1;
    let c = s[at];
    match c {
        b'_' => {
            if next < s.len() {
                double_under_operator(s[next])
            } else {
                Err(2)
            }
        }
        b'R' => {
            if next < s.len() {
                rtti_operator(s[next])
            } else {
                Err(2)
            }
        }
        _ => under_operator(c),
    }
}

pub fn read_operator(s: &[u8], at: usize) -> Leaf
    ensures { result ≡ read_operator (drop at s.now) }
{
    if s.len() <= at {
        return Err(0);
    }
    let c = s[at];
    if c == b'_' {
        read_under_operator(s, at + 1)
    } else {
        operator(c)
    }
}

// What `read_var_type` begins with: its prefixes in their order, the letter behind them, and the look ahead for a stored type.
ghost use Rattle.std.specs.Prelude.{◌≡◌, List, ◌∷◌, ℕ, ◌+◌, ◌<◌, ◌^◌, drop};
ghost use Rattle.forms.specs.Start.{start};
ghost use Rattle.forms.specs.Types.{start_if, type_start, type_letter, digit_behind, type_reference};

use crate::start::Start;
use letters::read_qualifier;
use scan::cursor::{consume, read_digit};

// The prefixes; `Plain` where none of them stands.
#[derive(Clone, Copy)]
pub enum TypeForm {
    Enum,
    FunctionRef,
    FunctionPtr,
    MemberFunctionPtr,
    Constant,
    TemplateParameter,
    Array,
    RValueRef,
    EmptyPack,
    Nullptr,
    Function,
    QualifiedFunction,
    Alias,
    Reclassed,
    MemberPointer,
    Plain,
}

// The letters behind them. A basic type is its place in the crate's enum Type, counted from `Void`.
#[derive(Clone, Copy)]
pub enum TypeLetter {
    Parameter,
    Union,
    Struct,
    Class,
    Ref,
    VolatileRef,
    Ptr,
    ConstPtr,
    VolatilePtr,
    ConstVolatilePtr,
    Array,
    Basic(u32),
}

// A stored type: its digit, and the bytes up to and with it.
pub type Reference = Option<(u32, usize)>;

// One prefix where the literal stands here, and none where it does not.
fn start_if(
    literal: &[u8],
    s: &[u8],
    at: usize,
    form: TypeForm,
    taken: usize,
    other: usize,
) -> Start<TypeForm>
    ensures { result ≡ start_if literal.now (drop at s.now) form taken other }
{
    if consume(literal, s, at) {
        Start { form, taken }
    } else {
        Start {
            form: TypeForm::Plain,
            taken: other,
        }
    }
}

// Behind `$$A`.
fn start_of_function(s: &[u8], at: usize) -> Start<TypeForm>
    ensures { result ≡ type_start (36 ∷ 36 ∷ 65 ∷ drop at s.now) }
{
    if consume(b"6", s, at) {
        return Start {
            form: TypeForm::Function,
            taken: 4,
        };
    }
    start_if(b"8@@", s, at, TypeForm::QualifiedFunction, 6, 1)
}

// `$$x`
fn two_dollars(c: u8) -> Start<TypeForm>
    requires { (c ≡ 66 → ⊥) × (c ≡ 36 → ⊥) × (c ≡ 65 → ⊥) }
    ensures { (rest : List ℕ) → result ≡ type_start (36 ∷ 36 ∷ c ∷ rest) }
{
    match c {
        b'Q' => Start {
            form: TypeForm::RValueRef,
            taken: 3,
        },
        b'V' => Start {
            form: TypeForm::EmptyPack,
            taken: 3,
        },
        b'Z' => Start {
            form: TypeForm::EmptyPack,
            taken: 3,
        },
        b'T' => Start {
            form: TypeForm::Nullptr,
            taken: 3,
        },
        b'Y' => Start {
            form: TypeForm::Alias,
            taken: 3,
        },
        b'C' => Start {
            form: TypeForm::Reclassed,
            taken: 3,
        },
        _ => Start {
            form: TypeForm::Plain,
            taken: 1,
        },
    }
}

// Behind `$$`.
fn start_behind_two(s: &[u8], at: usize) -> Start<TypeForm>
    ensures { result ≡ type_start (36 ∷ 36 ∷ drop at s.now) }
{
    if s.len() <= at {
        return Start {
            form: TypeForm::Plain,
            taken: 1,
        };
    }
    let c = s[at];
    match c {
        b'B' => start_if(b"Y", s, at + 1, TypeForm::Array, 4, 1),
        b'$' => start_if(b"V", s, at + 1, TypeForm::EmptyPack, 4, 1),
        b'A' => start_of_function(s, at + 1),
        _ => two_dollars(c),
    }
}

// `$x`
fn one_dollar(c: u8) -> Start<TypeForm>
    requires { c ≡ 36 → ⊥ }
    ensures { (rest : List ℕ) → result ≡ type_start (36 ∷ c ∷ rest) }
{
    match c {
        b'0' => Start {
            form: TypeForm::Constant,
            taken: 2,
        },
        b'D' => Start {
            form: TypeForm::TemplateParameter,
            taken: 2,
        },
        b'S' => Start {
            form: TypeForm::EmptyPack,
            taken: 2,
        },
        b'1' | b'H'..=b'J' => Start {
            form: TypeForm::MemberPointer,
            taken: 2,
        },
        _ => Start {
            form: TypeForm::Plain,
            taken: 1,
        },
    }
}

// Behind `$`.
fn start_behind_one(s: &[u8], at: usize) -> Start<TypeForm>
    ensures { result ≡ type_start (36 ∷ drop at s.now) }
{
    if s.len() <= at {
        return Start {
            form: TypeForm::Plain,
            taken: 1,
        };
    }
    let c = s[at];
    if c == b'$' {
        start_behind_two(s, at + 1)
    } else {
        one_dollar(c)
    }
}

// Behind `P`.
fn start_of_pointer(s: &[u8], at: usize) -> Start<TypeForm>
    ensures { result ≡ type_start (80 ∷ drop at s.now) }
{
    if consume(b"6", s, at) {
        return Start {
            form: TypeForm::FunctionPtr,
            taken: 2,
        };
    }
    start_if(b"8", s, at, TypeForm::MemberFunctionPtr, 2, 0)
}

pub fn type_start(s: &[u8], at: usize) -> Start<TypeForm>
    ensures { result ≡ type_start (drop at s.now) }
{
    if s.len() <= at {
        return Start {
            form: TypeForm::Plain,
            taken: 0,
        };
    }
    let c = s[at];
    match c {
        b'W' => start_if(b"4", s, at + 1, TypeForm::Enum, 2, 0),
        b'A' => start_if(b"6", s, at + 1, TypeForm::FunctionRef, 2, 0),
        b'P' => start_of_pointer(s, at + 1),
        b'$' => start_behind_one(s, at + 1),
        _ => Start {
            form: TypeForm::Plain,
            taken: 0,
        },
    }
}

// One letter.
fn one_letter(c: u8) -> Option<TypeLetter>
    requires { c ≡ 95 → ⊥ }
    ensures { (rest : List ℕ) → start result 1 ≡ type_letter (c ∷ rest) }
{
    match c {
        b'?' => Some(TypeLetter::Parameter),
        b'T' => Some(TypeLetter::Union),
        b'U' => Some(TypeLetter::Struct),
        b'V' => Some(TypeLetter::Class),
        b'A' => Some(TypeLetter::Ref),
        b'B' => Some(TypeLetter::VolatileRef),
        b'P' => Some(TypeLetter::Ptr),
        b'Q' => Some(TypeLetter::ConstPtr),
        b'R' => Some(TypeLetter::VolatilePtr),
        b'S' => Some(TypeLetter::ConstVolatilePtr),
        b'Y' => Some(TypeLetter::Array),
        b'X' => Some(TypeLetter::Basic(0)),
        b'D' => Some(TypeLetter::Basic(2)),
        b'C' => Some(TypeLetter::Basic(3)),
        b'E'..=b'K' => Some(TypeLetter::Basic((c - 65) as u32)),
        b'M'..=b'O' => Some(TypeLetter::Basic((c - 58) as u32)),
        _ => None,
    }
}

// The letter behind `_`.
fn two_letters(c: u8) -> Option<TypeLetter>
    ensures { (rest : List ℕ) → start result 2 ≡ type_letter (95 ∷ c ∷ rest) }
{
    match c {
        b'N' => Some(TypeLetter::Basic(1)),
        b'J'..=b'M' => Some(TypeLetter::Basic((c - 63) as u32)),
        b'W' => Some(TypeLetter::Basic(15)),
        b'Q' => Some(TypeLetter::Basic(16)),
        b'S' => Some(TypeLetter::Basic(17)),
        b'U' => Some(TypeLetter::Basic(18)),
        _ => None,
    }
}

pub fn type_letter(s: &[u8], at: usize) -> Start<Option<TypeLetter>>
    ensures { result ≡ type_letter (drop at s.now) }
{
    if s.len() <= at {
        return Start {
            form: None,
            taken: 0,
        };
    }
    let c = s[at];
    if c != b'_' {
        return Start {
            form: one_letter(c),
            taken: 1,
        };
    }
    let next = at + 1;
    if next < s.len() {
        Start {
            form: two_letters(s[next]),
            taken: 2,
        }
    } else {
        Start {
            form: None,
            taken: 1,
        }
    }
}

// A digit n bytes further.
fn digit_behind(s: &[u8], at: usize, n: usize) -> Reference
    requires { at + n < 2 ^ 64 }
    ensures { result ≡ digit_behind n (drop at s.now) }
{
    let d = read_digit(s, at + n)?;
    Some((d as u32, n + 1))
}

// A digit that denotes a stored type, where a type is read: it opens no part, so it is looked for first.
pub fn type_reference(s: &[u8], at: usize) -> Reference
    ensures { result ≡ type_reference (drop at s.now) }
{
    if !consume(b"$", s, at) {
        return digit_behind(s, at, 0);
    }
    if consume(b"$$C", s, at) {
        let class = read_qualifier(s, at + 3);
        return digit_behind(s, at, 3 + class.taken);
    }
    if consume(b"$0", s, at) {
        return None;
    }
    if consume(b"$1", s, at) {
        return None;
    }
    digit_behind(s, at, 1)
}

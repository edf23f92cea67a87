// What `parse`, the symbol's type in it, and `read_nested_name` begin with.
ghost use Rattle.std.specs.Prelude.{◌≡◌, List, ◌∷◌, ℕ, drop};
ghost use Rattle.forms.specs.Begins.{parse_start, symbol_start, name_start};

use crate::start::Start;
use scan::cursor::consume;

#[derive(Clone, Copy)]
pub enum ParseForm {
    Md5,
    Guard,
    Template,
    Name,
}

// A variable has its kind, the place in the crate's enum VarStorageKind.
#[derive(Clone, Copy)]
pub enum SymbolForm {
    Variable(u32),
    VFTable,
    VBTable,
    ExternC,
    Function,
    String,
    VCallThunk,
    Rtti,
    Member,
    Nothing,
}

#[derive(Clone, Copy)]
pub enum NameForm {
    Stored(u32),
    Parsed,
    Template,
    AnonymousId,
    Anonymous,
    Interface,
    Discriminator,
    Plain,
}

// Behind the symbol's `?`.
pub fn parse_start(s: &[u8], at: usize) -> Start<ParseForm>
    ensures { result ≡ parse_start (drop at s.now) }
{
    if consume(b"?@", s, at) {
        return Start {
            form: ParseForm::Md5,
            taken: 2,
        };
    }
    if consume(b"$TSS", s, at) {
        return Start {
            form: ParseForm::Guard,
            taken: 4,
        };
    }
    if consume(b"$", s, at) {
        return Start {
            form: ParseForm::Template,
            taken: 1,
        };
    }
    Start {
        form: ParseForm::Name,
        taken: 0,
    }
}

// A start for each letter, which the layout spreads over four lines.
fn symbol_letter(c: u8) -> Start<SymbolForm>
    ensures { (rest : List ℕ) → result ≡ symbol_start (c ∷ rest) }
{
    match c {
        b'0'..=b'4' => Start {
            form: SymbolForm::Variable((c - b'0') as u32),
            taken: 1,
        },
        b'6' => Start {
            form: SymbolForm::VFTable,
            taken: 1,
        },
        b'7' => Start {
            form: SymbolForm::VBTable,
            taken: 1,
        },
        b'9' => Start {
            form: SymbolForm::ExternC,
            taken: 1,
        },
        b'Y' => Start {
            form: SymbolForm::Function,
            taken: 1,
        },
        b'_' => Start {
            form: SymbolForm::String,
            taken: 1,
        },
        b'$' => Start {
            form: SymbolForm::VCallThunk,
            taken: 1,
        },
        b'8' => Start {
            form: SymbolForm::Rtti,
            taken: 1,
        },
        _ => Start {
            form: SymbolForm::Member,
            taken: 0,
        },
    }
}

// Behind the symbol's name. A member function's class is read from the letter itself.
pub fn symbol_start(s: &[u8], at: usize) -> Start<SymbolForm>
    ensures { result ≡ symbol_start (drop at s.now) }
{
    if at < s.len() {
        symbol_letter(s[at])
    } else {
        Start {
            form: SymbolForm::Nothing,
            taken: 0,
        }
    }
}

// Behind `?A`.
fn name_behind_a(s: &[u8], at: usize) -> Start<NameForm>
    ensures { result ≡ name_start (63 ∷ 65 ∷ drop at s.now) }
{
    if consume(b"0x", s, at) {
        Start {
            form: NameForm::AnonymousId,
            taken: 4,
        }
    } else {
        Start {
            form: NameForm::Anonymous,
            taken: 2,
        }
    }
}

// Behind `?`. The `?` of a nested symbol is looked at and left to it.
fn name_behind_mark(s: &[u8], at: usize) -> Start<NameForm>
    ensures { result ≡ name_start (63 ∷ drop at s.now) }
{
    if s.len() <= at {
        return Start {
            form: NameForm::Discriminator,
            taken: 1,
        };
    }
    let c = s[at];
    match c {
        b'?' => Start {
            form: NameForm::Parsed,
            taken: 1,
        },
        b'$' => Start {
            form: NameForm::Template,
            taken: 2,
        },
        b'A' => name_behind_a(s, at + 1),
        b'Q' => Start {
            form: NameForm::Interface,
            taken: 2,
        },
        _ => Start {
            form: NameForm::Discriminator,
            taken: 1,
        },
    }
}

pub fn name_start(s: &[u8], at: usize) -> Start<NameForm>
    ensures { result ≡ name_start (drop at s.now) }
{
    if s.len() <= at {
        return Start {
            form: NameForm::Plain,
            taken: 0,
        };
    }
    let c = s[at];
    match c {
        b'0'..=b'9' => Start {
            form: NameForm::Stored((c - b'0') as u32),
            taken: 1,
        },
        b'?' => name_behind_mark(s, at + 1),
        _ => Start {
            form: NameForm::Plain,
            taken: 0,
        },
    }
}

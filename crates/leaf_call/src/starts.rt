// What productions begin with, by the number of the form.
ghost use Rattle.std.specs.Prelude.{◌≡◌, ℕ};
ghost use Rattle.leaf_call.specs.Answers.{accepted};
ghost use Rattle.leaf_call.specs.Starts.{type_form, letter_number, parse_form, symbol_form, name_form, of_type_head, of_reference};

use crate::reply::{Reply, accepted_as, refused};
use forms::begins::{NameForm, ParseForm, SymbolForm};
use forms::start::Start;
use forms::types::{Reference, TypeForm, TypeLetter};

// A form has a number, by which a caller in C knows it.
pub trait Numbered {
    ghost number_of: { Self → ℕ };

    fn number(self) -> usize
        ensures { result ≡ number_of self };
}

impl Numbered for TypeForm {
    ghost number_of = { type_form };

    fn number(self) -> usize {
        match self {
            TypeForm::Enum => 0,
            TypeForm::FunctionRef => 1,
            TypeForm::FunctionPtr => 2,
            TypeForm::MemberFunctionPtr => 3,
            TypeForm::Constant => 4,
            TypeForm::TemplateParameter => 5,
            TypeForm::Array => 6,
            TypeForm::RValueRef => 7,
            TypeForm::EmptyPack => 8,
            TypeForm::Nullptr => 9,
            TypeForm::Function => 10,
            TypeForm::QualifiedFunction => 11,
            TypeForm::Alias => 12,
            TypeForm::Reclassed => 13,
            TypeForm::MemberPointer => 14,
            TypeForm::Plain => 15,
        }
    }
}

impl Numbered for TypeLetter {
    ghost number_of = { letter_number };

    fn number(self) -> usize {
        match self {
            TypeLetter::Parameter => 0,
            TypeLetter::Union => 2,
            TypeLetter::Struct => 3,
            TypeLetter::Class => 4,
            TypeLetter::Ref => 5,
            TypeLetter::VolatileRef => 6,
            TypeLetter::Ptr => 7,
            TypeLetter::ConstPtr => 8,
            TypeLetter::VolatilePtr => 9,
            TypeLetter::ConstVolatilePtr => 10,
            TypeLetter::Array => 11,
            TypeLetter::Basic(k) => 32 + (k as usize),
        }
    }
}

impl Numbered for ParseForm {
    ghost number_of = { parse_form };

    fn number(self) -> usize {
        match self {
            ParseForm::Md5 => 0,
            ParseForm::Guard => 1,
            ParseForm::Template => 2,
            ParseForm::Name => 3,
        }
    }
}

impl Numbered for SymbolForm {
    ghost number_of = { symbol_form };

    fn number(self) -> usize {
        match self {
            SymbolForm::Variable(k) => k as usize,
            SymbolForm::VFTable => 5,
            SymbolForm::VBTable => 6,
            SymbolForm::ExternC => 8,
            SymbolForm::Function => 11,
            SymbolForm::String => 9,
            SymbolForm::VCallThunk => 10,
            SymbolForm::Rtti => 7,
            SymbolForm::Member => 12,
            SymbolForm::Nothing => 13,
        }
    }
}

impl Numbered for NameForm {
    ghost number_of = { name_form };

    fn number(self) -> usize {
        match self {
            NameForm::Stored(d) => 32 + (d as usize),
            NameForm::Parsed => 1,
            NameForm::Template => 2,
            NameForm::AnonymousId => 3,
            NameForm::Anonymous => 4,
            NameForm::Interface => 5,
            NameForm::Discriminator => 6,
            NameForm::Plain => 7,
        }
    }
}

pub fn of_start<F: Numbered + Copy>(a: Start<F>) -> Reply
    ensures { result ≡ accepted (F.number_of a.form) a.taken }
{
    accepted_as(a.form.number(), a.taken)
}

pub fn of_type_head(a: Start<Option<TypeLetter>>) -> Reply
    ensures { result ≡ of_type_head a }
{
    let l = a.form;
    match l {
        Some(l) => accepted_as(l.number(), a.taken),
        None => refused(3, a.taken),
    }
}

pub fn of_reference(a: Reference) -> Reply
    ensures { result ≡ of_reference a }
{
    match a {
        Some((d, n)) => accepted_as(d as usize, n),
        None => refused(3, 0),
    }
}

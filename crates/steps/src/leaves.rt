// The leaves at a state's place: what they say, and the state behind the bytes that they take.
ghost use Rattle.std.specs.Prelude.{◌≡◌};
ghost use Rattle.std.specs.Prelude.{Ok};
ghost use Rattle.scan.specs.Number.{read_guard_number};
ghost use Rattle.scan.specs.Name.{read_md5_name};
ghost use Rattle.letters.specs.Classes.{read_calling_conv, read_func_class, read_storage_class, read_qualifier, read_storage_class_for_return, read_func_qualifiers, read_string_width, read_guard_marker};
ghost use Rattle.operators.specs.Operators.{read_operator};
ghost use Rattle.grammar.specs.Words.{leaf, span, class, number, unsigned, string};
ghost use Rattle.grammar.specs.Grammar.{pointee_class, element_letter, element_class};
ghost use Rattle.steps.specs.Does.{Values, Meets, Expects, Digits, Refers, took_leaf, took_span, took_class, LeafRoom, SpanRoom, ClassRoom};

use crate::reader::Reader;
use crate::state::pass;
use grammar::{Refusal, State};
use letters::{Class, storage};
use scan::cursor::{Leaf, Span};

fn take_leaf(st: &mut State, l: Leaf) -> Result<u32, Refusal>
    requires { LeafRoom st.old.at l }
    ensures { (result, st.new) ≡ took_leaf l st.old }
{
    match l {
        Ok((v, n)) => {
            pass(st, n);
            Ok(v)
        }
        Err(n) => {
            pass(st, n);
            Err(Refusal::Syntax)
        }
    }
}

// The value of a span is what it took: another definition than a leaf's, and no closure between them.
fn take_span(st: &mut State, l: Span) -> Result<u32, Refusal>
    requires { SpanRoom st.old.at l }
    ensures { (result, st.new) ≡ took_span l st.old }
{
    match l {
        Ok(n) => {
            pass(st, n);
            Ok(n as u32)
        }
        Err(n) => {
            pass(st, n);
            Err(Refusal::Syntax)
        }
    }
}

fn take_class(st: &mut State, c: Class) -> u32
    requires { ClassRoom st.old.at c }
    ensures { (result, st.new) ≡ took_class c st.old }
{
    pass(st, c.taken);
    c.bits
}

// Each leaf by the name of the crate's reader: what they differ in, the leaf itself, is what their promises say.
impl Reader<'_> {
    pub fn number(self, st: &mut State) -> Result<u32, Refusal>
        ensures { Values self.entry.s.now number st.old result st.new }
    {
        take_leaf(st, scan::number::read_number(self.s, st.at as usize))
    }

    pub fn unsigned(self, st: &mut State) -> Result<u32, Refusal>
        ensures { Values self.entry.s.now unsigned st.old result st.new }
    {
        take_leaf(st, scan::number::read_unsigned(self.s, st.at as usize))
    }

    pub fn guard_number(self, st: &mut State) -> Result<u32, Refusal>
        ensures { Values self.entry.s.now (leaf read_guard_number) st.old result st.new }
    {
        take_leaf(st, scan::number::read_guard_number(self.s, st.at as usize))
    }

    pub fn calling_conv(self, st: &mut State) -> Result<u32, Refusal>
        ensures { Values self.entry.s.now (leaf read_calling_conv) st.old result st.new }
    {
        take_leaf(st, letters::read_calling_conv(self.s, st.at as usize))
    }

    pub fn func_class(self, st: &mut State) -> Result<u32, Refusal>
        ensures { Values self.entry.s.now (leaf read_func_class) st.old result st.new }
    {
        take_leaf(st, letters::read_func_class(self.s, st.at as usize))
    }

    pub fn return_class(self, st: &mut State) -> Result<u32, Refusal>
        ensures { Values self.entry.s.now (leaf read_storage_class_for_return) st.old result st.new }
    {
        take_leaf(
            st,
            letters::read_storage_class_for_return(self.s, st.at as usize),
        )
    }

    pub fn string_width(self, st: &mut State) -> Result<u32, Refusal>
        ensures { Values self.entry.s.now (leaf read_string_width) st.old result st.new }
    {
        take_leaf(st, letters::read_string_width(self.s, st.at as usize))
    }

    pub fn guard_marker(self, st: &mut State) -> Result<u32, Refusal>
        ensures { Values self.entry.s.now (leaf read_guard_marker) st.old result st.new }
    {
        take_leaf(st, letters::read_guard_marker(self.s, st.at as usize))
    }

    pub fn operator(self, st: &mut State) -> Result<u32, Refusal>
        ensures { Values self.entry.s.now (leaf read_operator) st.old result st.new }
    {
        take_leaf(st, operators::read_operator(self.s, st.at as usize))
    }

    pub fn string(self, st: &mut State) -> Result<u32, Refusal>
        ensures { Values self.entry.s.now string st.old result st.new }
    {
        take_span(st, scan::name::read_string(self.s, st.at as usize))
    }

    pub fn md5(self, st: &mut State) -> Result<u32, Refusal>
        ensures { Values self.entry.s.now (span read_md5_name) st.old result st.new }
    {
        take_span(st, scan::name::read_md5_name(self.s, st.at as usize))
    }

    pub fn storage_class(self, st: &mut State) -> u32
        ensures { Values self.entry.s.now (class read_storage_class) st.old (Ok result) st.new }
    {
        take_class(st, letters::read_storage_class(self.s, st.at as usize))
    }

    pub fn qualifier(self, st: &mut State) -> u32
        ensures { Values self.entry.s.now (class read_qualifier) st.old (Ok result) st.new }
    {
        take_class(st, letters::read_qualifier(self.s, st.at as usize))
    }

    pub fn func_qualifiers(self, st: &mut State) -> u32
        ensures { Values self.entry.s.now (class read_func_qualifiers) st.old (Ok result) st.new }
    {
        take_class(st, letters::read_func_qualifiers(self.s, st.at as usize))
    }

    // Whether these bytes stand here; then they are taken.
    pub fn consume(self, st: &mut State, literal: &[u8]) -> bool
        ensures { Meets literal.now self.entry.s.now st.old result st.new }
    {
        let there = scan::cursor::consume(literal, self.s, st.at as usize);
        if there {
            pass(st, literal.len());
        }
        there
    }

    // These bytes, which must stand here.
    pub fn expect(self, st: &mut State, literal: &[u8]) -> Result<(), Refusal>
        ensures { Expects literal.now self.entry.s.now st.old result st.new }
    {
        if self.consume(st, literal) {
            Ok(())
        } else {
            Err(Refusal::Syntax)
        }
    }

    // A digit, taken if it stands here.
    pub fn digit(self, st: &mut State) -> Option<u32>
        ensures { Digits self.entry.s.now st.old result st.new }
    {
        let d = scan::cursor::read_digit(self.s, st.at as usize)?;
        pass(st, 1);
        Some(u32::from(d))
    }

    // A stored type, taken if one is named here.
    pub fn reference(self, st: &mut State) -> Option<u32>
        ensures { Refers self.entry.s.now st.old result st.new }
    {
        let (i, n) = forms::types::type_reference(self.s, st.at as usize)?;
        pass(st, n);
        Some(i)
    }

    // `E` and a class.
    pub fn pointee_class(self, st: &mut State) -> u32
        ensures { Values self.entry.s.now pointee_class st.old (Ok result) st.new }
    {
        let wide = self.consume(st, b"E");
        let class = self.storage_class(st);
        if wide { class + storage::PTR64 } else { class }
    }

    fn element_letter(self, st: &mut State) -> Result<u32, Refusal>
        ensures { Values self.entry.s.now element_letter st.old result st.new }
    {
        if self.consume(st, b"B") {
            return Ok(storage::CONST);
        }
        if self.consume(st, b"C") {
            return Ok(storage::CONST_VOLATILE);
        }
        if self.consume(st, b"D") {
            return Ok(storage::CONST_VOLATILE);
        }
        if self.consume(st, b"A") {
            return Ok(0);
        }
        Err(Refusal::Syntax)
    }

    // `$$C` and a letter that it needs, or nothing.
    pub fn element_class(self, st: &mut State) -> Result<u32, Refusal>
        ensures { Values self.entry.s.now element_class st.old result st.new }
    {
        if self.consume(st, b"$$C") {
            self.element_letter(st)
        } else {
            Ok(0)
        }
    }
}

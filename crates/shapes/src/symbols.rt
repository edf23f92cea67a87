// The shape of a symbol's own type, of its beginning, and of a guard's index.
ghost use Rattle.std.specs.Prelude.{◌<◌, Ok};
ghost use Rattle.grammar.specs.Grammar.{parse_of, symbol_type_body, symbol_type_of, encoded_string, guard_index, index_and_one};
ghost use Rattle.forms.specs.declared.begins.SymbolForm.TheVariants.{String, VCallThunk};
ghost use Rattle.forms.specs.Begins.{parse_forms};
ghost use Rattle.forms.specs.declared.begins.ParseForm.TheVariants.{Name};
ghost use Rattle.grammar.specs.Words.{ordered};
ghost use Rattle.steps.specs.Does.{Values, Leads};
ghost use Rattle.shapes.specs.Shapes.{shape_symbol, table_of};

use forms::begins::{ParseForm, SymbolForm};
use grammar::{Refusal, State};
use node::kinds;
use steps::reader::Reader;
use steps::state::pass;

#[derive(Clone, Copy)]
pub enum SymbolShape {
    // a variable of a kind
    Variable(u32),
    // a table of a kind, with its class
    Table(u32, u32),
    // a function, a member or not
    Function(bool),
    // a node of a kind with two numbers and nothing below it
    Leaf(u32, u32, u32),
}

fn table(r: Reader, st: &mut State, kind: u32) -> SymbolShape
    ensures { Leads r.entry.s.now (table_of kind) st.old shape_symbol (Ok result) st.new }
{
    SymbolShape::Table(kind, r.qualifier(st))
}

// An encoded string of a width: the node has the range of its characters.
fn characters(r: Reader, st: &mut State, width: u32) -> Result<SymbolShape, Refusal>
    requires { width < 256 }
    ensures { Leads r.entry.s.now (encoded_string width) st.old shape_symbol result st.new }
{
    let at = st.at;
    match strings::encoded::read_encoded_string(r.s, at as usize, width as u8) {
        Ok(chars) => {
            pass(st, chars.taken);
            Ok(SymbolShape::Leaf(
                kinds::CONSTANT_STRING,
                u32::from(at) + (chars.start as u32),
                (chars.taken - chars.start) as u32,
            ))
        }
        Err(n) => {
            pass(st, n);
            Err(Refusal::Syntax)
        }
    }
}

fn string(r: Reader, st: &mut State) -> Result<SymbolShape, Refusal>
    ensures { Leads r.entry.s.now (symbol_type_of String) st.old shape_symbol result st.new }
{
    let width = r.string_width(st)?;
    characters(r, st, width)
}

fn thunk(r: Reader, st: &mut State) -> Result<SymbolShape, Refusal>
    ensures { Leads r.entry.s.now (symbol_type_of VCallThunk) st.old shape_symbol result st.new }
{
    r.expect(st, b"B")?;
    let offset = r.number(st)?;
    r.expect(st, b"A")?;
    let convention = r.calling_conv(st)?;
    Ok(SymbolShape::Leaf(kinds::VCALL_THUNK, offset, convention))
}

fn form_shape(r: Reader, st: &mut State, f: SymbolForm) -> Result<SymbolShape, Refusal>
    ensures { Leads r.entry.s.now (symbol_type_of f) st.old shape_symbol result st.new }
{
    match f {
        SymbolForm::Variable(k) => Ok(SymbolShape::Variable(k)),
        SymbolForm::VFTable => Ok(table(r, st, kinds::VFTABLE)),
        SymbolForm::VBTable => Ok(table(r, st, kinds::VBTABLE)),
        SymbolForm::ExternC => Ok(SymbolShape::Leaf(kinds::NONE, 0, 0)),
        SymbolForm::Function => Ok(SymbolShape::Function(false)),
        SymbolForm::String => string(r, st),
        SymbolForm::VCallThunk => thunk(r, st),
        SymbolForm::Rtti => Ok(SymbolShape::Leaf(kinds::RTTI_TYPE, 0, 0)),
        SymbolForm::Member => Ok(SymbolShape::Function(true)),
        SymbolForm::Nothing => Ok(SymbolShape::Leaf(kinds::NONE, 0, 0)),
    }
}

// The symbol's own type, up to its first part.
pub fn symbol_shape(r: Reader, st: &mut State) -> Result<SymbolShape, Refusal>
    ensures { Leads r.entry.s.now symbol_type_body st.old shape_symbol result st.new }
{
    let start = forms::begins::symbol_start(r.s, st.at as usize);
    pass(st, start.taken);
    form_shape(r, st, start.form)
}

// parse, behind its `?`, up to its first part.
pub fn parse_form(r: Reader, st: &mut State) -> ParseForm
    ensures { Leads r.entry.s.now (ordered parse_forms parse_of (parse_of Name)) st.old parse_of (Ok result) st.new }
{
    let start = forms::begins::parse_start(r.s, st.at as usize);
    pass(st, start.taken);
    start.form
}

// One more than the index that stands here; 0 at the end.
fn index_and_one(r: Reader, st: &mut State) -> Result<u32, Refusal>
    ensures { Values r.entry.s.now index_and_one st.old result st.new }
{
    if r.s.len() <= st.at as usize {
        return Ok(0);
    }
    let index = r.unsigned(st)?;
    Ok(index + 1)
}

// The index of a guard, and one; 0 of any other.
pub fn guard_index(r: Reader, st: &mut State, guard: bool) -> Result<u32, Refusal>
    ensures { Values r.entry.s.now (guard_index guard) st.old result st.new }
{
    if !guard {
        return Ok(0);
    }
    r.guard_marker(st)?;
    index_and_one(r, st)
}

// The shape of a name.
ghost use Rattle.std.specs.Prelude.{Bool};
ghost use Rattle.grammar.specs.Grammar.{unqualified_body, nested_body, nested_of, plain_name, special_name, rtti_type_descriptor, rtti_base_class_descriptor};
ghost use Rattle.forms.specs.declared.begins.NameForm.TheVariants.{AnonymousId, Anonymous, Interface, Discriminator};
ghost use Rattle.steps.specs.Does.{Leads};
ghost use Rattle.shapes.specs.Shapes.{shape_unqualified, shape_name, name_form_of, shape_special, unguarded};

use forms::begins::NameForm;
use grammar::{Refusal, State};
use node::kinds;
use operators::{RTTI_BASE_CLASS_DESCRIPTOR, RTTI_TYPE_DESCRIPTOR};
use steps::reader::Reader;
use steps::state::pass;

#[derive(Clone, Copy)]
pub enum NameShape {
    // the stored name of a digit
    Stored(u32),
    // a symbol as a name, a template
    Parsed,
    Template,
    // a node of a kind with two numbers, and whether it is stored
    Leaf(u32, u32, u32, bool),
}

// A plain name.
fn plain_shape(r: Reader, st: &mut State) -> Result<NameShape, Refusal>
    ensures { Leads r.entry.s.now plain_name st.old shape_name result st.new }
{
    let from = u32::from(st.at);
    let n = r.string(st)?;
    Ok(NameShape::Leaf(kinds::NON_TEMPLATE, from, n.saturating_sub(1), true))
}

// A namespace by its id. Without a digit two could not be told apart.
fn anonymous_id(r: Reader, st: &mut State) -> Result<NameShape, Refusal>
    ensures { Leads r.entry.s.now (nested_of AnonymousId) st.old shape_name result st.new }
{
    let from = u32::from(st.at);
    let n = scan::name::read_hex_digits(r.s, st.at as usize);
    pass(st, n);
    if n == 0 {
        return Err(Refusal::Syntax);
    }
    r.expect(st, b"@")?;
    Ok(NameShape::Leaf(
        kinds::ANONYMOUS_ID,
        from.saturating_sub(2),
        (n + 2) as u32,
        true,
    ))
}

fn anonymous(r: Reader, st: &mut State) -> Result<NameShape, Refusal>
    ensures { Leads r.entry.s.now (nested_of Anonymous) st.old shape_name result st.new }
{
    r.expect(st, b"@")?;
    Ok(NameShape::Leaf(kinds::ANONYMOUS, 0, 0, false))
}

fn interface(r: Reader, st: &mut State) -> Result<NameShape, Refusal>
    ensures { Leads r.entry.s.now (nested_of Interface) st.old shape_name result st.new }
{
    let from = u32::from(st.at);
    let n = r.string(st)?;
    r.expect(st, b"@")?;
    Ok(NameShape::Leaf(kinds::AS_INTERFACE, from, n.saturating_sub(1), true))
}

fn discriminator(r: Reader, st: &mut State) -> Result<NameShape, Refusal>
    ensures { Leads r.entry.s.now (nested_of Discriminator) st.old shape_name result st.new }
{
    let n = r.number(st)?;
    Ok(NameShape::Leaf(kinds::DISCRIMINATOR, n, 0, false))
}

fn form_shape(r: Reader, st: &mut State, f: NameForm) -> Result<NameShape, Refusal>
    ensures { Leads r.entry.s.now (name_form_of f) st.old shape_name result st.new }
{
    match f {
        NameForm::Stored(i) => Ok(NameShape::Stored(i)),
        NameForm::Parsed => Ok(NameShape::Parsed),
        NameForm::Template => Ok(NameShape::Template),
        NameForm::AnonymousId => anonymous_id(r, st),
        NameForm::Anonymous => anonymous(r, st),
        NameForm::Interface => interface(r, st),
        NameForm::Discriminator => discriminator(r, st),
        NameForm::Plain => plain_shape(r, st),
    }
}

// read_nested_name, up to its first part.
pub fn name_shape(r: Reader, st: &mut State) -> Result<NameShape, Refusal>
    ensures { Leads r.entry.s.now nested_body st.old shape_name result st.new }
{
    let start = forms::begins::name_start(r.s, st.at as usize);
    pass(st, start.taken);
    form_shape(r, st, start.form)
}

#[derive(Clone, Copy)]
pub enum SpecialShape {
    // an operator; the descriptor of a type, with its class; the descriptor of a base class, with its four numbers
    Operator(u32),
    Type(u32),
    Base(u32, u32, u32, u32),
}

fn type_descriptor(r: Reader, st: &mut State) -> Result<SpecialShape, Refusal>
    ensures { Leads r.entry.s.now (unguarded rtti_type_descriptor) st.old shape_special result st.new }
{
    r.expect(st, b"?")?;
    Ok(SpecialShape::Type(r.storage_class(st)))
}

fn base_descriptor(r: Reader, st: &mut State) -> Result<SpecialShape, Refusal>
    ensures { Leads r.entry.s.now (unguarded rtti_base_class_descriptor) st.old shape_special result st.new }
{
    let nv_offset = r.number(st)?;
    let vbptr_offset = r.number(st)?;
    let vbtable_offset = r.number(st)?;
    let flags = r.number(st)?;
    Ok(SpecialShape::Base(nv_offset, vbptr_offset, vbtable_offset, flags))
}

// read_special_name, up to its first part.
pub fn special_shape(r: Reader, st: &mut State) -> Result<SpecialShape, Refusal>
    ensures { Leads r.entry.s.now special_name st.old shape_special result st.new }
{
    let op = r.operator(st)?;
    match op {
        RTTI_TYPE_DESCRIPTOR => type_descriptor(r, st),
        RTTI_BASE_CLASS_DESCRIPTOR => base_descriptor(r, st),
        _ => Ok(SpecialShape::Operator(op)),
    }
}

#[derive(Clone, Copy)]
pub enum UnqualifiedShape {
    Template,
    Special,
    // a plain name from a place on, of a length
    Plain(u32, u32),
}

// read_unqualified_name, up to its first part.
pub fn unqualified_shape(r: Reader, st: &mut State) -> Result<UnqualifiedShape, Refusal>
    ensures { (function : Bool) → Leads r.entry.s.now (unqualified_body function) st.old (shape_unqualified function) result st.new }
{
    if r.consume(st, b"?$") {
        return Ok(UnqualifiedShape::Template);
    }
    if r.consume(st, b"?") {
        return Ok(UnqualifiedShape::Special);
    }
    let from = u32::from(st.at);
    let n = r.string(st)?;
    Ok(UnqualifiedShape::Plain(from, n.saturating_sub(1)))
}

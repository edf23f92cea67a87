// The shape of a type.
ghost use Rattle.std.specs.Prelude.{◌≤◌};
ghost use Rattle.grammar.specs.Grammar.{var_type_body, form_type, letter_type, plain_type};
ghost use Rattle.forms.specs.declared.types.TypeForm.TheVariants.{Reclassed, MemberPointer};
ghost use Rattle.forms.specs.declared.types.TypeLetter.TheVariants.{Parameter};
ghost use Rattle.steps.specs.Does.{Leads};
ghost use Rattle.shapes.specs.Shapes.{basic_of, shape_type, numbered_type};
ghost use Rattle.node.specs.Kind.{last_basic};

use forms::types::{TypeForm, TypeLetter};
use grammar::{Refusal, State};
use letters::storage;
use node::kinds;
use steps::reader::Reader;
use steps::state::pass;

#[derive(Clone, Copy)]
pub enum Shape {
    // a node of a kind above a name; whether it is read as a function's; its class
    Named(u32, bool, u32),
    // above a pointee, above a function
    Pointing(u32, u32),
    ToFunction(u32, u32),
    // with qualifiers or not
    Member(bool),
    Function(bool),
    Array,
    // a node of a kind with a number and nothing below it
    Leaf(u32, u32),
}

// A node of a kind with the number that stands here.
fn numbered(r: Reader, st: &mut State, kind: u32) -> Result<Shape, Refusal>
    ensures { Leads r.entry.s.now (numbered_type kind) st.old shape_type result st.new }
{
    let n = r.number(st)?;
    Ok(Shape::Leaf(kind, n))
}

// The number of a template's parameter, which stands here negated.
fn parameter(r: Reader, st: &mut State) -> Result<Shape, Refusal>
    ensures { Leads r.entry.s.now (letter_type 0 Parameter) st.old shape_type result st.new }
{
    let n = r.number(st)?;
    Ok(Shape::Leaf(kinds::TEMPLATE_PARAMETER_WITH_INDEX, n.wrapping_neg()))
}

fn letter_shape(r: Reader, st: &mut State, l: TypeLetter, sc: u32) -> Result<Shape, Refusal>
    requires { basic_of l ≤ last_basic }
    ensures { Leads r.entry.s.now (letter_type sc l) st.old shape_type result st.new }
{
    match l {
        TypeLetter::Parameter => parameter(r, st),
        TypeLetter::Union => Ok(Shape::Named(kinds::UNION, false, sc)),
        TypeLetter::Struct => Ok(Shape::Named(kinds::STRUCT, false, sc)),
        TypeLetter::Class => Ok(Shape::Named(kinds::CLASS, false, sc)),
        TypeLetter::Ref => Ok(Shape::Pointing(kinds::REF, sc)),
        TypeLetter::VolatileRef => Ok(Shape::Pointing(kinds::REF, storage::VOLATILE)),
        TypeLetter::Ptr => Ok(Shape::Pointing(kinds::PTR, sc)),
        TypeLetter::ConstPtr => Ok(Shape::Pointing(kinds::PTR, storage::CONST)),
        TypeLetter::VolatilePtr => Ok(Shape::Pointing(kinds::PTR, storage::VOLATILE)),
        TypeLetter::ConstVolatilePtr => Ok(Shape::Pointing(kinds::PTR, storage::CONST_VOLATILE)),
        TypeLetter::Array => Ok(Shape::Array),
        TypeLetter::Basic(k) => Ok(Shape::Leaf(kinds::VOID + k, sc)),
    }
}

// What follows the prefixes.
fn plain_shape(r: Reader, st: &mut State, sc: u32) -> Result<Shape, Refusal>
    ensures { Leads r.entry.s.now (plain_type sc) st.old shape_type result st.new }
{
    let head = forms::types::type_letter(r.s, st.at as usize);
    pass(st, head.taken);
    match head.form {
        Some(l) => letter_shape(r, st, l, sc),
        None => Err(Refusal::Syntax),
    }
}

fn reclassed(r: Reader, st: &mut State) -> Result<Shape, Refusal>
    ensures { Leads r.entry.s.now (form_type 0 Reclassed) st.old shape_type result st.new }
{
    let class = r.qualifier(st);
    plain_shape(r, st, class)
}

fn member_pointer(r: Reader, st: &mut State) -> Result<Shape, Refusal>
    ensures { Leads r.entry.s.now (form_type 0 MemberPointer) st.old shape_type result st.new }
{
    r.expect(st, b"?")?;
    Ok(Shape::Member(false))
}

fn form_shape(r: Reader, st: &mut State, f: TypeForm, sc: u32) -> Result<Shape, Refusal>
    ensures { Leads r.entry.s.now (form_type sc f) st.old shape_type result st.new }
{
    match f {
        TypeForm::Enum => Ok(Shape::Named(kinds::ENUM, false, sc)),
        TypeForm::FunctionRef => Ok(Shape::ToFunction(kinds::REF, sc)),
        TypeForm::FunctionPtr => Ok(Shape::ToFunction(kinds::PTR, sc)),
        TypeForm::MemberFunctionPtr => Ok(Shape::Member(true)),
        TypeForm::Constant => numbered(r, st, kinds::CONSTANT),
        TypeForm::TemplateParameter => numbered(r, st, kinds::TEMPLATE_PARAMETER_WITH_INDEX),
        TypeForm::Array => Ok(Shape::Array),
        TypeForm::RValueRef => Ok(Shape::Pointing(kinds::RVALUE_REF, sc)),
        TypeForm::EmptyPack => Ok(Shape::Leaf(kinds::EMPTY_PARAMETER_PACK, 0)),
        TypeForm::Nullptr => Ok(Shape::Leaf(kinds::NULLPTR, 0)),
        TypeForm::Function => Ok(Shape::Function(false)),
        TypeForm::QualifiedFunction => Ok(Shape::Function(true)),
        TypeForm::Alias => Ok(Shape::Named(kinds::ALIAS, true, sc)),
        TypeForm::Reclassed => reclassed(r, st),
        TypeForm::MemberPointer => member_pointer(r, st),
        TypeForm::Plain => plain_shape(r, st, sc),
    }
}

// read_var_type, up to its first part. Names and symbols have the same three lines, each over its own forms.
pub fn type_shape(r: Reader, st: &mut State, sc: u32) -> Result<Shape, Refusal>
    ensures { Leads r.entry.s.now (var_type_body sc) st.old shape_type result st.new }
{
    let start = forms::types::type_start(r.s, st.at as usize);
    pass(st, start.taken);
    form_shape(r, st, start.form, sc)
}

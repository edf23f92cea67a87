// The readers of the crate's parser, over a lent symbol and a lent node table. Each does what the production of its name
// says: types, names and parameter lists call each other in a cycle, the remaining depth falling where a part opens.
//
// Each calls others, with all that they share; so their names are short:
//   ty, vtype          read_var_type, and as it is called: a stored type opens no part
//   named, point, tofn a type above a name, above a pointee, above a function
//   func, mptr, tail   read_func_type, read_member_function_pointer, and how both end
//   rett, strt         a return, and read_func_return_type: that of a structor
//   array, dims, elem  read_array, read_nested_array, an array's element
//   fparams, params    read_func_params, read_params; plist is one void or parameters, param is one of them
//   scope, sname       read_scope, and one of its names
//   name, tmpl         read_name, read_template_name
//   unq, unqn          read_unqualified_name, and as it is called: a digit opens no part
//   special            read_special_name
//   nested, nname      read_nested_name, and as it is called: a digit opens no part
//   parse, pform       parse, and behind its `?`: pname a name and its type, pguard `?$TSS`, ptmpl `?$`
//   otmpl, oname       the symbol of `?$`, and its name; oguard is the symbol of `?$TSS`
//   sym, var           the symbol's own type, a variable
//
// They take the reader `r`, that is the symbol and the budgets of the reading; what is lent, the node table `t`; the
// state `st`; and `depth`, how many more parts may open: of all limits it alone falls.
#![tactic(auto)]

ghost use Rattle.std.specs.Prelude.{◌≡◌, ◌-◌, ◌+◌, true, eqb, length};
ghost use Rattle.scan.specs.Bytes.{pick};
ghost use Rattle.forms.specs.Begins.{parse_forms};
ghost use Rattle.forms.specs.declared.begins.ParseForm.TheVariants.{Guard, Template, Name};
ghost use Rattle.grammar.specs.Words.{digit, ordered, negative};
ghost use Rattle.grammar.specs.Grammar as tags;
ghost use Rattle.grammar.specs.Grammar.{VarType, Unqualified, Nested, Parse, OuterTemplate, OuterName, OuterGuard, SymbolType, var_type, func_type, member_function_pointer, array, dimensions, element, func_return_type, func_params, params, stored_param, new_param, scope, template_name, unqualified_name, special_name, nested_name, parse_of};
ghost use Rattle.steps.specs.Does.{Does, Reads};
ghost use Rattle.shapes.specs.Shapes.{shape_type, shape_symbol, tail_of, returned};
ghost use Rattle.shapes.specs.declared.types.Shape.TheVariants.{Named, Pointing, ToFunction};
ghost use Rattle.shapes.specs.declared.symbols.SymbolShape.TheVariants.{Variable};
ghost use Rattle.ends.specs.Ends.{void_or_params, scope_name};

use ends::{
    array_end, is_guard, leaf_name, list_end, list_stops, literal_part, no_type, param_end,
    parse_md5, parsed,
};
use forms::begins::ParseForm;
use grammar::{Refusal, State};
use node::{Node, kinds};
use shapes::heads::{Signature, function_head, pointer_head, symbol_head};
use shapes::names::{
    NameShape, SpecialShape, UnqualifiedShape, name_shape, special_shape, unqualified_shape,
};
use shapes::symbols::{SymbolShape, guard_index, parse_form, symbol_shape};
use shapes::types::{Shape, type_shape};
use steps::close::{BLANK, to};
use steps::memo::{aside, memorize_name, name_of, put_back, type_of};
use steps::reader::Reader;

// One more than the bytes that are left: a list has no more entries.
fn turns(s: &[u8], at: u16) -> usize
    ensures { result ≡ length s.now - at + 1 }
{
    s.len().saturating_sub(at as usize) + 1
}

// read_var_type, as it is called: a stored type opens no part.
#[cycle(readers)]
fn vtype(r: Reader, t: &mut [u32], st: &mut State, depth: u16, sc: u32) -> Result<u16, Refusal>
    ensures { Does r.entry depth (var_type sc) st.old t.old result st.new t.new }
{
    match r.reference(st) {
        Some(i) => type_of(st, i),
        None => ty(r, t, st, depth, sc),
    }
}

// read_var_type
#[cycle(readers)]
fn ty(r: Reader, t: &mut [u32], st: &mut State, depth: u16, sc: u32) -> Result<u16, Refusal>
    ensures { Reads r.entry depth (VarType sc) st.old t.old result st.new t.new }
{
    let left = r.open(st, depth)?;
    let shape = type_shape(r, st, sc)?;
    match shape {
        Shape::Named(kind, function, class) => named(r, t, st, left, kind, function, class),
        Shape::Pointing(kind, class) => point(r, t, st, left, kind, class),
        Shape::ToFunction(kind, class) => tofn(r, t, st, left, kind, class),
        Shape::Member(qualifiers) => mptr(r, t, st, left, qualifiers),
        Shape::Function(qualifiers) => func(r, t, st, left, qualifiers),
        Shape::Array => array(r, t, st, left),
        Shape::Leaf(kind, p) => r.shut_leaf(t, st, kind, p, 0),
    }
}

// A type above a name.
#[cycle(readers)]
fn named(
    r: Reader,
    t: &mut [u32],
    st: &mut State,
    depth: u16,
    kind: u32,
    function: bool,
    class: u32,
) -> Result<u16, Refusal>
    ensures { Does r.entry depth (shape_type (Named kind function class)) st.old t.old result st.new t.new }
{
    let (n, _) = name(r, t, st, depth, function)?;
    r.above(t, st, n, kind, class, 0)
}

// A type above a pointee.
#[cycle(readers)]
fn point(
    r: Reader,
    t: &mut [u32],
    st: &mut State,
    depth: u16,
    kind: u32,
    class: u32,
) -> Result<u16, Refusal>
    ensures { Does r.entry depth (shape_type (Pointing kind class)) st.old t.old result st.new t.new }
{
    let sc = r.pointee_class(st);
    let n = vtype(r, t, st, depth, sc)?;
    r.above(t, st, n, kind, class, 0)
}

// A type above a function, which is a part of its own.
#[cycle(readers)]
fn tofn(
    r: Reader,
    t: &mut [u32],
    st: &mut State,
    depth: u16,
    kind: u32,
    class: u32,
) -> Result<u16, Refusal>
    ensures { Does r.entry depth (shape_type (ToFunction kind class)) st.old t.old result st.new t.new }
{
    let left = r.open(st, depth)?;
    let n = func(r, t, st, left, false)?;
    r.above(t, st, n, kind, class, 0)
}

// read_func_type
#[cycle(readers)]
fn func(
    r: Reader,
    t: &mut [u32],
    st: &mut State,
    depth: u16,
    qualifiers: bool,
) -> Result<u16, Refusal>
    ensures { Does r.entry depth (func_type qualifiers) st.old t.old result st.new t.new }
{
    let x = function_head(r, st, qualifiers)?;
    tail(r, t, st, depth, x)
}

// read_member_function_pointer
#[cycle(readers)]
fn mptr(
    r: Reader,
    t: &mut [u32],
    st: &mut State,
    depth: u16,
    qualifiers: bool,
) -> Result<u16, Refusal>
    ensures { Does r.entry depth (member_function_pointer qualifiers) st.old t.old result st.new t.new }
{
    let (n, _) = name(r, t, st, depth, true)?;
    let x = pointer_head(r, st, n, qualifiers)?;
    tail(r, t, st, depth, x)
}

// A function's return and its parameters, behind its head.
#[cycle(readers)]
fn tail(r: Reader, t: &mut [u32], st: &mut State, depth: u16, x: Signature) -> Result<u16, Refusal>
    ensures { Does r.entry depth (tail_of x) st.old t.old result st.new t.new }
{
    let n = rett(r, t, st, depth, x.return_class, x.structor)?;
    let l = fparams(r, t, st, depth)?;
    let function = Node {
        kind: x.kind,
        a: to(n),
        b: u32::from(l),
        c: x.third,
        p: x.class,
        q: x.convention,
        r: x.func_class,
        ..BLANK
    };
    r.shut(t, st, function)
}

// The return of a function: a structor's may be missing.
#[cycle(readers)]
fn rett(
    r: Reader,
    t: &mut [u32],
    st: &mut State,
    depth: u16,
    sc: u32,
    structor: bool,
) -> Result<u16, Refusal>
    ensures { Does r.entry depth (returned structor sc) st.old t.old result st.new t.new }
{
    if structor {
        return strt(r, t, st, depth, sc);
    }
    vtype(r, t, st, depth, sc)
}

// read_func_return_type
#[cycle(readers)]
fn strt(r: Reader, t: &mut [u32], st: &mut State, depth: u16, sc: u32) -> Result<u16, Refusal>
    ensures { Does r.entry depth (func_return_type sc) st.old t.old result st.new t.new }
{
    if scan::cursor::consume(b"@", r.s, st.at as usize) {
        return literal_part(r, t, st, depth, b"@", kinds::NONE, 0);
    }
    vtype(r, t, st, depth, sc)
}

// Whether a number counts no dimensions: it is 0 or negative.
fn is_no_dimension(n: u32) -> bool
    ensures { result ≡ pick (eqb n 0) true (negative n) }
{
    n == 0 || 0x8000_0000 <= n
}

// read_array
#[cycle(readers)]
fn array(r: Reader, t: &mut [u32], st: &mut State, depth: u16) -> Result<u16, Refusal>
    ensures { Does r.entry depth array st.old t.old result st.new t.new }
{
    let n = r.number(st)?;
    if is_no_dimension(n) {
        return Err(Refusal::Syntax);
    }
    let (a, _) = dims(r, t, st, depth, n)?;
    Ok(a)
}

// read_nested_array: a dimension, and one less inside it. Beside the node stands the class of the element.
#[cycle(readers)]
fn dims(
    r: Reader,
    t: &mut [u32],
    st: &mut State,
    depth: u16,
    dimension: u32,
) -> Result<(u16, u32), Refusal>
    ensures { Does r.entry depth (dimensions dimension) st.old t.old result st.new t.new }
{
    let len = r.number(st)?;
    if dimension <= 1 {
        let inner = elem(r, t, st, depth)?;
        return array_end(r, t, st, inner, len);
    }
    let left = r.open(st, depth)?;
    let inner = dims(r, t, st, left, dimension - 1)?;
    array_end(r, t, st, inner, len)
}

// An array's element, with its class.
#[cycle(readers)]
fn elem(r: Reader, t: &mut [u32], st: &mut State, depth: u16) -> Result<(u16, u32), Refusal>
    ensures { Does r.entry depth element st.old t.old result st.new t.new }
{
    let class = r.element_class(st)?;
    let n = vtype(r, t, st, depth, 0)?;
    Ok((n, class))
}

// read_func_params
#[cycle(readers)]
fn fparams(r: Reader, t: &mut [u32], st: &mut State, depth: u16) -> Result<u16, Refusal>
    ensures { Does r.entry depth func_params st.old t.old result st.new t.new }
{
    let l = plist(r, t, st, depth)?;
    r.expect(st, b"Z")?;
    Ok(l)
}

// One void, or parameters.
#[cycle(readers)]
fn plist(r: Reader, t: &mut [u32], st: &mut State, depth: u16) -> Result<u16, Refusal>
    ensures { Does r.entry depth void_or_params st.old t.old result st.new t.new }
{
    if scan::cursor::consume(b"X", r.s, st.at as usize) {
        let n = literal_part(r, t, st, depth, b"X", kinds::VOID, 0)?;
        return r.place(t, st, n, kinds::TYPE_PLACE, 0);
    }
    params(r, t, st, depth)
}

// read_params
#[cycle(readers)]
fn params(r: Reader, t: &mut [u32], st: &mut State, depth: u16) -> Result<u16, Refusal>
    ensures { Does r.entry depth params st.old t.old result st.new t.new }
{
    let mut last = 0u16;
    let most = turns(r.s, st.at);
    for _ in 0..most {
        if list_stops(r.s, st.at) {
            return list_end(r, t, st, depth, last);
        }
        last = param(r, t, st, depth, last)?;
    }
    Err(Refusal::Syntax)
}

// A parameter and its place.
#[cycle(readers)]
fn param(r: Reader, t: &mut [u32], st: &mut State, depth: u16, last: u16) -> Result<u16, Refusal>
    ensures { Does r.entry depth (digit (stored_param last) (new_param last)) st.old t.old result st.new t.new }
{
    match r.digit(st) {
        Some(i) => {
            let n = type_of(st, i)?;
            r.place(t, st, n, kinds::TYPE_PLACE, last)
        }
        None => {
            let from = st.at;
            let n = vtype(r, t, st, depth, 0)?;
            param_end(r, t, st, n, from, last)
        }
    }
}

// read_scope
#[cycle(readers)]
fn scope(r: Reader, t: &mut [u32], st: &mut State, depth: u16) -> Result<u16, Refusal>
    ensures { Does r.entry depth scope st.old t.old result st.new t.new }
{
    let mut last = 0u16;
    let most = turns(r.s, st.at);
    for _ in 0..most {
        if r.consume(st, b"@") {
            return Ok(last);
        }
        last = sname(r, t, st, depth, last)?;
    }
    Err(Refusal::Syntax)
}

// A name of a scope and its place.
#[cycle(readers)]
fn sname(r: Reader, t: &mut [u32], st: &mut State, depth: u16, last: u16) -> Result<u16, Refusal>
    ensures { Does r.entry depth (scope_name last) st.old t.old result st.new t.new }
{
    let n = nname(r, t, st, depth)?;
    r.place(t, st, n, kinds::NAME_PLACE, last)
}

// read_template_name: its own memo, and the outer one comes back.
#[cycle(readers)]
fn tmpl(r: Reader, t: &mut [u32], st: &mut State, depth: u16) -> Result<u16, Refusal>
    ensures { Does r.entry depth template_name st.old t.old result st.new t.new }
{
    let outer = aside(st);
    let (n, _) = unqn(r, t, st, depth, false)?;
    let l = params(r, t, st, depth)?;
    put_back(st, outer);
    let kind = kinds::TEMPLATE;
    let a = to(n);
    let b = u32::from(l);
    r.shut(
        t,
        st,
        Node {
            kind,
            a,
            b,
            ..BLANK
        },
    )
}

// read_name: beside the node stands whether it is a guard's.
#[cycle(readers)]
fn name(
    r: Reader,
    t: &mut [u32],
    st: &mut State,
    depth: u16,
    function: bool,
) -> Result<(u16, bool), Refusal>
    ensures { Reads r.entry depth (tags.Name function) st.old t.old result st.new t.new }
{
    let left = r.open(st, depth)?;
    let (n, guard) = unqn(r, t, st, left, function)?;
    let l = scope(r, t, st, left)?;
    let kind = kinds::SYMBOL;
    let a = to(n);
    let b = u32::from(l);
    let s = r.shut(
        t,
        st,
        Node {
            kind,
            a,
            b,
            ..BLANK
        },
    )?;
    Ok((s, guard))
}

// read_unqualified_name, as it is called: a digit opens no part.
#[cycle(readers)]
fn unqn(
    r: Reader,
    t: &mut [u32],
    st: &mut State,
    depth: u16,
    function: bool,
) -> Result<(u16, bool), Refusal>
    ensures { Does r.entry depth (unqualified_name function) st.old t.old result st.new t.new }
{
    match r.digit(st) {
        Some(i) => {
            let n = name_of(st, i)?;
            Ok((n, false))
        }
        None => unq(r, t, st, depth, function),
    }
}

// read_unqualified_name
#[cycle(readers)]
fn unq(
    r: Reader,
    t: &mut [u32],
    st: &mut State,
    depth: u16,
    function: bool,
) -> Result<(u16, bool), Refusal>
    ensures { Reads r.entry depth (Unqualified function) st.old t.old result st.new t.new }
{
    let left = r.open(st, depth)?;
    let shape = unqualified_shape(r, st)?;
    match shape {
        UnqualifiedShape::Template => {
            let n = tmpl(r, t, st, left)?;
            if !function {
                memorize_name(t, r.s, st, n);
            }
            Ok((n, false))
        }
        UnqualifiedShape::Special => special(r, t, st, left),
        UnqualifiedShape::Plain(start, len) => {
            let n = leaf_name(r, t, st, kinds::NON_TEMPLATE, start, len, true)?;
            Ok((n, false))
        }
    }
}

// read_special_name
#[cycle(readers)]
fn special(r: Reader, t: &mut [u32], st: &mut State, depth: u16) -> Result<(u16, bool), Refusal>
    ensures { Does r.entry depth special_name st.old t.old result st.new t.new }
{
    let shape = special_shape(r, st)?;
    match shape {
        SpecialShape::Operator(op) => {
            let n = r.shut_leaf(t, st, kinds::OPERATOR, op, 0)?;
            Ok((n, is_guard(op)))
        }
        SpecialShape::Type(class) => {
            let n = vtype(r, t, st, depth, class)?;
            let d = r.above(t, st, n, kinds::RTTI_TYPE_DESCRIPTOR, class, 0)?;
            Ok((d, false))
        }
        SpecialShape::Base(p, q, vbtable, s) => {
            let base = Node {
                kind: kinds::RTTI_BASE_CLASS_DESCRIPTOR,
                p,
                q,
                r: vbtable,
                s,
                ..BLANK
            };
            let n = r.shut(t, st, base)?;
            Ok((n, false))
        }
    }
}

// read_nested_name, as it is called: a digit opens no part.
#[cycle(readers)]
fn nname(r: Reader, t: &mut [u32], st: &mut State, depth: u16) -> Result<u16, Refusal>
    ensures { Does r.entry depth nested_name st.old t.old result st.new t.new }
{
    match r.digit(st) {
        Some(i) => name_of(st, i),
        None => nested(r, t, st, depth),
    }
}

// read_nested_name
#[cycle(readers)]
fn nested(r: Reader, t: &mut [u32], st: &mut State, depth: u16) -> Result<u16, Refusal>
    ensures { Reads r.entry depth Nested st.old t.old result st.new t.new }
{
    let left = r.open(st, depth)?;
    let shape = name_shape(r, st)?;
    match shape {
        NameShape::Stored(i) => name_of(st, i),
        NameShape::Parsed => {
            let n = parse(r, t, st, left)?;
            r.above(t, st, n, kinds::PARSED_NAME, 0, 0)
        }
        NameShape::Template => {
            let n = tmpl(r, t, st, left)?;
            memorize_name(t, r.s, st, n);
            Ok(n)
        }
        NameShape::Leaf(kind, p, q, stored) => leaf_name(r, t, st, kind, p, q, stored),
    }
}

// parse
#[cycle(readers)]
pub fn parse(r: Reader, t: &mut [u32], st: &mut State, depth: u16) -> Result<u16, Refusal>
    ensures { Reads r.entry depth Parse st.old t.old result st.new t.new }
{
    let left = r.open(st, depth)?;
    r.expect(st, b"?")?;
    pform(r, t, st, left)
}

// parse, behind its `?`.
#[cycle(readers)]
fn pform(r: Reader, t: &mut [u32], st: &mut State, depth: u16) -> Result<u16, Refusal>
    ensures { Does r.entry depth (ordered parse_forms parse_of (parse_of Name)) st.old t.old result st.new t.new }
{
    match parse_form(r, st) {
        ParseForm::Md5 => parse_md5(r, t, st, depth),
        ParseForm::Guard => pguard(r, t, st, depth),
        ParseForm::Template => ptmpl(r, t, st, depth),
        ParseForm::Name => pname(r, t, st, depth),
    }
}

// parse of a name and its type.
#[cycle(readers)]
fn pname(r: Reader, t: &mut [u32], st: &mut State, depth: u16) -> Result<u16, Refusal>
    ensures { Does r.entry depth (parse_of Name) st.old t.old result st.new t.new }
{
    let (s, guard) = name(r, t, st, depth, true)?;
    let index = guard_index(r, st, guard)?;
    let n = sym(r, t, st, depth)?;
    parsed(r, t, st, s, n, index)
}

// parse behind `?$TSS`.
#[cycle(readers)]
fn pguard(r: Reader, t: &mut [u32], st: &mut State, depth: u16) -> Result<u16, Refusal>
    ensures { Does r.entry depth (parse_of Guard) st.old t.old result st.new t.new }
{
    let number = r.guard_number(st)?;
    let s = oguard(r, t, st, depth)?;
    let kind = kinds::THREAD_SAFE_STATIC_GUARD;
    let n = literal_part(r, t, st, depth, b"4HA", kind, number)?;
    parsed(r, t, st, s, n, 0)
}

// parse behind `?$`.
#[cycle(readers)]
fn ptmpl(r: Reader, t: &mut [u32], st: &mut State, depth: u16) -> Result<u16, Refusal>
    ensures { Does r.entry depth (parse_of Template) st.old t.old result st.new t.new }
{
    let s = otmpl(r, t, st, depth)?;
    let n = no_type(r, t, st, depth)?;
    parsed(r, t, st, s, n, 0)
}

// The symbol of `?$`.
#[cycle(readers)]
fn otmpl(r: Reader, t: &mut [u32], st: &mut State, depth: u16) -> Result<u16, Refusal>
    ensures { Reads r.entry depth OuterTemplate st.old t.old result st.new t.new }
{
    let left = r.open(st, depth)?;
    let n = oname(r, t, st, left)?;
    r.above(t, st, n, kinds::SYMBOL, 0, 0)
}

// Its name.
#[cycle(readers)]
fn oname(r: Reader, t: &mut [u32], st: &mut State, depth: u16) -> Result<u16, Refusal>
    ensures { Reads r.entry depth OuterName st.old t.old result st.new t.new }
{
    let left = r.open(st, depth)?;
    tmpl(r, t, st, left)
}

// The symbol of `?$TSS`.
#[cycle(readers)]
fn oguard(r: Reader, t: &mut [u32], st: &mut State, depth: u16) -> Result<u16, Refusal>
    ensures { Reads r.entry depth OuterGuard st.old t.old result st.new t.new }
{
    let left = r.open(st, depth)?;
    let n = nname(r, t, st, left)?;
    let l = scope(r, t, st, left)?;
    let kind = kinds::OUTER_SYMBOL;
    let a = to(n);
    let b = u32::from(l);
    r.shut(
        t,
        st,
        Node {
            kind,
            a,
            b,
            ..BLANK
        },
    )
}

// The symbol's own type.
#[cycle(readers)]
fn sym(r: Reader, t: &mut [u32], st: &mut State, depth: u16) -> Result<u16, Refusal>
    ensures { Reads r.entry depth SymbolType st.old t.old result st.new t.new }
{
    let left = r.open(st, depth)?;
    let shape = symbol_shape(r, st)?;
    match shape {
        SymbolShape::Variable(kind) => var(r, t, st, left, kind),
        SymbolShape::Table(kind, p) => {
            let l = scope(r, t, st, left)?;
            let a = u32::from(l);
            r.shut(
                t,
                st,
                Node {
                    kind,
                    a,
                    p,
                    ..BLANK
                },
            )
        }
        SymbolShape::Function(member) => {
            let x = symbol_head(r, st, member)?;
            tail(r, t, st, left, x)
        }
        SymbolShape::Leaf(kind, p, q) => r.shut_leaf(t, st, kind, p, q),
    }
}

// A variable of a kind.
#[cycle(readers)]
fn var(r: Reader, t: &mut [u32], st: &mut State, depth: u16, kind: u32) -> Result<u16, Refusal>
    ensures { Does r.entry depth (shape_symbol (Variable kind)) st.old t.old result st.new t.new }
{
    let n = vtype(r, t, st, depth, 0)?;
    let class = r.storage_class(st);
    r.above(t, st, n, kinds::VAR, class, kind)
}

// The head of a function's type: what stands before its return.
ghost use Rattle.std.specs.Prelude.{◌≡◌, ◌≤◌, Ok};
ghost use Rattle.grammar.specs.Grammar.{func_type, member_function, member_pointer, is_static};
ghost use Rattle.shapes.specs.declared.symbols.SymbolShape.TheVariants.{Function};
ghost use Rattle.steps.specs.Does.{Values, Leads};
ghost use Rattle.shapes.specs.Shapes.{shape_symbol, tail_of, conventions, function_rest, variable_class, ptr64_class};
ghost use Rattle.letters.specs.StorageClass.{PTR64};

use grammar::{Refusal, State};
use letters::{function, storage};
use node::kinds;
use steps::close::to;
use steps::reader::Reader;

// The node's kind, numbers and third reference, the class of the return, and whether a structor's `@` may stand for it.
#[derive(Clone, Copy)]
pub struct Signature {
    pub kind: u32,
    pub class: u32,
    pub convention: u32,
    pub func_class: u32,
    pub third: u32,
    pub return_class: u32,
    pub structor: bool,
}

// A function that is no member, with no class.
const PLAIN: Signature = Signature {
    kind: kinds::NON_MEMBER_FUNCTION,
    class: 0,
    convention: 0,
    func_class: 0,
    third: 0,
    return_class: 0,
    structor: false,
};

// A convention and the class of the return, into a signature that lacks them.
fn conventions(r: Reader, st: &mut State, x: Signature) -> Result<Signature, Refusal>
    ensures { Leads r.entry.s.now (conventions x) st.old tail_of result st.new }
{
    let convention = r.calling_conv(st)?;
    let return_class = r.return_class(st)?;
    Ok(Signature {
        convention,
        return_class,
        ..x
    })
}

// `?` and a class, or nothing.
fn variable_class(r: Reader, st: &mut State) -> u32
    ensures { Values r.entry.s.now variable_class st.old (Ok result) st.new }
{
    if r.consume(st, b"?") {
        r.storage_class(st)
    } else {
        0
    }
}

// read_func_type, behind its qualifiers.
fn function_rest(r: Reader, st: &mut State, class: u32) -> Result<Signature, Refusal>
    ensures { Leads r.entry.s.now (function_rest class) st.old tail_of result st.new }
{
    let convention = r.calling_conv(st)?;
    let return_class = variable_class(r, st);
    Ok(Signature {
        class,
        convention,
        return_class,
        ..PLAIN
    })
}

// read_func_type
pub fn function_head(r: Reader, st: &mut State, qualifiers: bool) -> Result<Signature, Refusal>
    ensures { Leads r.entry.s.now (func_type qualifiers) st.old tail_of result st.new }
{
    let class = if qualifiers { r.func_qualifiers(st) } else { 0 };
    function_rest(r, st, class)
}

fn is_static(class: u32) -> bool
    ensures { result ≡ is_static class }
{
    class / function::STATIC % 2 == 1
}

// A member function: a static one has no qualifiers.
fn member_head(r: Reader, st: &mut State) -> Result<Signature, Refusal>
    ensures { Leads r.entry.s.now member_function st.old tail_of result st.new }
{
    let func_class = r.func_class(st)?;
    let class = if is_static(func_class) {
        0
    } else {
        r.func_qualifiers(st)
    };
    let member = Signature {
        kind: kinds::MEMBER_FUNCTION,
        class,
        func_class,
        structor: true,
        ..PLAIN
    };
    conventions(r, st, member)
}

// The type of a symbol that is a function, a member or not.
pub fn symbol_head(r: Reader, st: &mut State, member: bool) -> Result<Signature, Refusal>
    ensures { Leads r.entry.s.now (shape_symbol (Function member)) st.old tail_of result st.new }
{
    if member {
        member_head(r, st)
    } else {
        conventions(r, st, PLAIN)
    }
}

// `E`, or nothing.
fn ptr64(r: Reader, st: &mut State) -> u32
    ensures classes { Values r.entry.s.now ptr64_class st.old (Ok result) st.new }
    ensures bits_bound { result ≤ PTR64 }
{
    if r.consume(st, b"E") {
        storage::PTR64
    } else {
        0
    }
}

// A pointer to a member function, behind its name: a qualifier and no function class, or the other way round.
pub fn pointer_head(
    r: Reader,
    st: &mut State,
    name: u16,
    qualifiers: bool,
) -> Result<Signature, Refusal>
    ensures { Leads r.entry.s.now (member_pointer qualifiers name) st.old tail_of result st.new }
{
    let wide = ptr64(r, st);
    let pointer = Signature {
        kind: kinds::MEMBER_FUNCTION_POINTER,
        class: wide,
        third: to(name),
        structor: true,
        ..PLAIN
    };
    if qualifiers {
        let class = r.qualifier(st) + wide;
        return conventions(r, st, Signature { class, ..pointer });
    }
    let func_class = r.func_class(st)?;
    conventions(
        r,
        st,
        Signature {
            func_class,
            ..pointer
        },
    )
}

// What closes a production, and the parts that open no other.
#![tactic(auto)]

ghost use Rattle.std.specs.Prelude.{◌≡◌, List, [], ◌∷◌, ℕ};
ghost use Rattle.grammar.specs.Table.{laid};
ghost use Rattle.grammar.specs.Grammar.{NoType, MdFive, OuterMd5, parse_of, list_end, is_guard, parsed};
ghost use Rattle.forms.specs.declared.begins.ParseForm.TheVariants.{Md5};
ghost use Rattle.steps.specs.Does.{Does, Reads};
ghost use Rattle.ends.specs.Ends.{Opens, leaf_name, literal_of, list_stops, param_end, array_end};

use grammar::{Refusal, State};
use node::{Node, kinds};
use operators::{LOCAL_STATIC_GUARD, LOCAL_STATIC_THREAD_GUARD};
use steps::close::{BLANK, to};
use steps::memo::{memorize_name, memorize_type};
use steps::reader::Reader;

// A name that refers to none, stored or not.
pub fn leaf_name(
    r: Reader,
    t: &mut [u32],
    st: &mut State,
    kind: u32,
    p: u32,
    q: u32,
    stored: bool,
) -> Result<u16, Refusal>
    ensures { (d : ℕ) → Does r.entry d (leaf_name kind p q stored) st.old t.old result st.new t.new }
{
    let n = r.shut_leaf(t, st, kind, p, q)?;
    if stored {
        memorize_name(t, r.s, st, n);
    }
    Ok(n)
}

// Whether an operator is a guard.
pub fn is_guard(operator: u32) -> bool
    ensures { result ≡ is_guard operator }
{
    matches!(operator, LOCAL_STATIC_GUARD | LOCAL_STATIC_THREAD_GUARD)
}

// A part of these bytes alone: a node with a number and nothing below it.
pub fn literal_part(
    r: Reader,
    t: &mut [u32],
    st: &mut State,
    depth: u16,
    literal: &[u8],
    kind: u32,
    p: u32,
) -> Result<u16, Refusal>
    ensures { (numbers : List ℕ) → laid kind 0 numbers [] ≡ laid kind 0 (p ∷ []) [] → Opens r.entry depth (literal_of literal.now kind numbers) st.old t.old result st.new t.new }
{
    r.open(st, depth)?;
    r.expect(st, literal)?;
    r.shut_leaf(t, st, kind, p, 0)
}

// The type of a symbol that has none.
pub fn no_type(r: Reader, t: &mut [u32], st: &mut State, depth: u16) -> Result<u16, Refusal>
    ensures { Reads r.entry depth NoType st.old t.old result st.new t.new }
{
    r.open(st, depth)?;
    r.shut_leaf(t, st, kinds::NONE, 0, 0)
}

fn md5_name(r: Reader, t: &mut [u32], st: &mut State, depth: u16) -> Result<u16, Refusal>
    ensures { Reads r.entry depth MdFive st.old t.old result st.new t.new }
{
    r.open(st, depth)?;
    let from = u32::from(st.at);
    let n = r.md5(st)?;
    r.shut_leaf(t, st, kinds::MD5, from, n.saturating_sub(1))
}

fn md5_symbol(r: Reader, t: &mut [u32], st: &mut State, depth: u16) -> Result<u16, Refusal>
    ensures { Reads r.entry depth OuterMd5 st.old t.old result st.new t.new }
{
    let left = r.open(st, depth)?;
    let n = md5_name(r, t, st, left)?;
    r.above(t, st, n, kinds::OUTER_SYMBOL, 0, 0)
}

// The root, above a symbol and its type.
pub fn parsed(
    r: Reader,
    t: &mut [u32],
    st: &mut State,
    symbol: u16,
    ty: u16,
    index: u32,
) -> Result<u16, Refusal>
    ensures { (d : ℕ) → Does r.entry d (parsed index symbol ty) st.old t.old result st.new t.new }
{
    let kind = kinds::PARSE_RESULT;
    let a = to(symbol);
    let b = to(ty);
    let p = index;
    r.shut(
        t,
        st,
        Node {
            kind,
            a,
            b,
            p,
            ..BLANK
        },
    )
}

// parse behind `??@`.
pub fn parse_md5(r: Reader, t: &mut [u32], st: &mut State, depth: u16) -> Result<u16, Refusal>
    ensures { Does r.entry depth (parse_of Md5) st.old t.old result st.new t.new }
{
    let n = md5_symbol(r, t, st, depth)?;
    let ty = no_type(r, t, st, depth)?;
    parsed(r, t, st, n, ty, 0)
}

// Whether a list of types ends here.
pub fn list_stops(s: &[u8], at: u16) -> bool
    ensures { result ≡ list_stops s.now at }
{
    let at = at as usize;
    scan::cursor::consume(b"@", s, at) || scan::cursor::consume(b"Z", s, at) || s.len() <= at
}

// The end of a list of types.
pub fn list_end(
    r: Reader,
    t: &mut [u32],
    st: &mut State,
    depth: u16,
    last: u16,
) -> Result<u16, Refusal>
    ensures { Does r.entry depth (list_end last) st.old t.old result st.new t.new }
{
    if scan::cursor::consume(b"Z", r.s, st.at as usize) {
        let n = literal_part(r, t, st, depth, b"Z", kinds::VAR_ARGS, 0)?;
        return r.place(t, st, n, kinds::TYPE_PLACE, last);
    }
    if r.s.len() <= st.at as usize {
        return Ok(last);
    }
    r.expect(st, b"@")?;
    Ok(last)
}

// The place of a parameter that was read from a place of the symbol on: its type is stored if it took more than a byte.
pub fn param_end(
    r: Reader,
    t: &mut [u32],
    st: &mut State,
    n: u16,
    from: u16,
    last: u16,
) -> Result<u16, Refusal>
    ensures { (d : ℕ) → Does r.entry d (param_end from last n) st.old t.old result st.new t.new }
{
    if (from as usize) + 1 < (st.at as usize) {
        memorize_type(t, r.s, st, n);
    }
    r.place(t, st, n, kinds::TYPE_PLACE, last)
}

// An array of a length over what was found, with the class of its element.
pub fn array_end(
    r: Reader,
    t: &mut [u32],
    st: &mut State,
    inner: (u16, u32),
    len: u32,
) -> Result<(u16, u32), Refusal>
    ensures { (d : ℕ) → Does r.entry d (array_end len inner) st.old t.old result st.new t.new }
{
    let (n, class) = inner;
    let a = r.above(t, st, n, kinds::ARRAY, class, len)?;
    Ok((a, class))
}

// Whether a node table is well formed: what a reading can leave.
#![tactic(auto)]

ghost use Rattle.std.specs.Prelude.{◌≡◌, ◌≤◌, ◌<◌, ◌^◌, [], ◌∷◌, true, false};
ghost use Rattle.node.specs.Cells.{nodes, cell_of, KIND};
ghost use Rattle.node.specs.Kind.{kind_number, MemberFunction};
ghost use Rattle.form.specs.Kinds.{any, whole_shape};
ghost use Rattle.form.specs.Form.{fits, ref_ok, height_ok, numbers_ok, range_ok, rest_ok, refs_ok, node_ok, well_formed};

mod classes;

use crate::classes::{
    ACCESS, ANY, CLASS, CONV, ENTRY, FUNCTION, GUARD, LAST_OPERATOR, LIST, MD5, NAMES, NESTED,
    NO_TYPE, NONE, OPERATOR, OUTER, OUTER_NAME, OUTER_TYPE, OWN_NAME, PARAMETER, PARSED, PLAIN,
    RETURN, ROOT_NAME, ROOT_TYPE, SCOPE, SCOPED, STORAGE, SYMBOL, TEMPLATED, TYPE, TYPES, VAR_ARGS,
    VAR_TYPE,
};
use node::{cell, cells, height, kind, kinds, room};

// A kind's shape: its class, what its three references may be, the largest of its four numbers,
// and whether the first two numbers are a start and a length in the symbol.
#[derive(Clone, Copy)]
struct Shape {
    class: usize,
    refs: [usize; 3],
    most: [usize; 4],
    ranged: bool,
}

const FIRST_TYPE: u32 = kinds::MEMBER_FUNCTION;

fn row(class: usize, refs: [usize; 3], most: [usize; 4]) -> Shape
    ensures { result ≡ record { class = class; refs = refs; most = most; ranged = false } }
{
    Shape {
        class,
        refs,
        most,
        ranged: false,
    }
}

// The shape of a node that names bytes of the symbol.
fn bytes(class: usize) -> Shape
    ensures { result ≡ record { class = class; refs = 1 ∷ 1 ∷ 1 ∷ []; most = any ∷ any ∷ 0 ∷ 0 ∷ []; ranged = true } }
{
    Shape {
        ranged: true,
        ..row(class, [NONE; 3], [ANY, ANY, 0, 0])
    }
}

// The shape of a kind before the types: places, symbols, names.
#[tactic(auto, unfolding(crate::specs::Kinds::whole_shape, crate::specs::Kinds::shape_of))]
fn name_shape(kind: u32) -> Shape
    requires { kind < kind_number MemberFunction }
    ensures { result ≡ whole_shape kind }
{
    match kind {
        kinds::NAME_PLACE => row(NAMES, [SCOPE, ENTRY, NONE], [0; 4]),
        kinds::TYPE_PLACE => row(TYPES, [LIST, PARAMETER, NONE], [0; 4]),
        kinds::PARSE_RESULT => row(PARSED, [ROOT_NAME, ROOT_TYPE, NONE], [GUARD, 0, 0, 0]),
        kinds::SYMBOL => row(SYMBOL, [OWN_NAME, SCOPE, NONE], [0; 4]),
        kinds::OUTER_SYMBOL => row(OUTER, [OUTER_NAME, SCOPE, NONE], [0; 4]),
        kinds::MD5 => bytes(MD5),
        kinds::OPERATOR => row(OPERATOR, [NONE; 3], [LAST_OPERATOR, 0, 0, 0]),
        kinds::RTTI_TYPE_DESCRIPTOR => row(OPERATOR, [TYPE, NONE, NONE], [CLASS, 0, 0, 0]),
        kinds::RTTI_BASE_CLASS_DESCRIPTOR => row(OPERATOR, [NONE; 3], [ANY; 4]),
        kinds::NON_TEMPLATE => bytes(PLAIN),
        kinds::AS_INTERFACE => bytes(SCOPED),
        kinds::TEMPLATE => row(PLAIN, [TEMPLATED, LIST, NONE], [0; 4]),
        kinds::DISCRIMINATOR => row(NESTED, [NONE; 3], [ANY, 0, 0, 0]),
        kinds::PARSED_NAME => row(NESTED, [PARSED, NONE, NONE], [0; 4]),
        kinds::ANONYMOUS_ID => bytes(SCOPED),
        kinds::ANONYMOUS => row(NESTED, [NONE; 3], [0; 4]),
        kinds::NONE => row(NO_TYPE, [NONE; 3], [0; 4]),
        _ => row(0, [0; 3], [0; 4]),
    }
}

// The shape of any other kind, a row each: types.
#[tactic(auto, unfolding(crate::specs::Kinds::whole_shape, crate::specs::Kinds::shape_of))]
fn type_shape(kind: u32) -> Shape
    requires { kind_number MemberFunction ≤ kind }
    ensures { result ≡ whole_shape kind }
{
    match kind {
        kinds::MEMBER_FUNCTION => row(OUTER_TYPE, [RETURN, LIST, NONE], [CLASS, CONV, ACCESS, 0]),
        kinds::MEMBER_FUNCTION_POINTER => row(
            VAR_TYPE,
            [RETURN, LIST, SYMBOL],
            [CLASS, CONV, ACCESS, 0],
        ),
        kinds::NON_MEMBER_FUNCTION => row(FUNCTION, [TYPE, LIST, NONE], [CLASS, CONV, 0, 0]),
        kinds::VBTABLE..=kinds::VFTABLE => row(OUTER_TYPE, [SCOPE, NONE, NONE], [CLASS, 0, 0, 0]),
        kinds::VCALL_THUNK => row(OUTER_TYPE, [NONE; 3], [ANY, CONV, 0, 0]),
        kinds::TEMPLATE_PARAMETER_WITH_INDEX => row(VAR_TYPE, [NONE; 3], [ANY, 0, 0, 0]),
        kinds::THREAD_SAFE_STATIC_GUARD => row(OUTER_TYPE, [NONE; 3], [ANY, 0, 0, 0]),
        kinds::CONSTANT => row(VAR_TYPE, [NONE; 3], [ANY, 0, 0, 0]),
        kinds::CONSTANT_STRING => bytes(OUTER_TYPE),
        kinds::PTR..=kinds::RVALUE_REF => row(VAR_TYPE, [TYPE, NONE, NONE], [CLASS, 0, 0, 0]),
        kinds::ARRAY => row(VAR_TYPE, [TYPE, NONE, NONE], [CLASS, ANY, 0, 0]),
        kinds::VAR => row(OUTER_TYPE, [TYPE, NONE, NONE], [CLASS, STORAGE, 0, 0]),
        kinds::ALIAS..=kinds::ENUM => row(VAR_TYPE, [SYMBOL, NONE, NONE], [CLASS, 0, 0, 0]),
        kinds::VOID..=kinds::LDOUBLE => row(VAR_TYPE, [NONE; 3], [CLASS, 0, 0, 0]),
        kinds::VAR_ARGS => row(VAR_ARGS, [NONE; 3], [0; 4]),
        kinds::EMPTY_PARAMETER_PACK..=kinds::NULLPTR => row(VAR_TYPE, [NONE; 3], [0; 4]),
        kinds::RTTI_TYPE => row(OUTER_TYPE, [NONE; 3], [0; 4]),
        _ => row(0, [0; 3], [0; 4]),
    }
}

fn shape_of(kind: u32) -> Shape
    ensures { result ≡ whole_shape kind }
{
    if kind < FIRST_TYPE {
        name_shape(kind)
    } else {
        type_shape(kind)
    }
}

// Whether what stands in a class may stand where a mask of classes is asked for.
#[tactic(auto, unfolding(crate::specs::Form::fits))]
fn is_fit(mask: usize, class: usize) -> bool
    ensures { result ≡ fits mask class }
{
    class != 0 && mask / class % 2 == 1
}

// A node of a table, and the shape of its kind.
#[derive(Clone, Copy)]
struct Shaped<'a> {
    table: &'a [u32],
    n: usize,
    shape: Shape,
    ghost of_kind: { shape ≡ whole_shape (cell_of table.now n KIND) },
}

fn node_at(table: &[u32], n: usize) -> Shaped<'_>
    ensures same_table { result.table.now ≡ table.now }
    ensures same_node { result.n ≡ n }
{
    Shaped {
        table,
        n,
        shape: shape_of(kind(table, n)),
    }
}

impl<'a> Shaped<'a> {
    fn cell(&self, j: usize) -> usize
        ensures { (result ≡ cell_of self.now.table.now self.now.n j) × (result < 2 ^ 32) }
    {
        cell(self.table, self.n, j)
    }

    // Whether reference r of the node names an earlier node that fits the mask; 0 names nothing.
    #[tactic(auto, unfolding(crate::specs::Form::ref_ok, crate::specs::Kinds::whole_shape))]
    fn is_ref_ok(&self, mask: usize, r: usize) -> bool
        ensures { result ≡ ref_ok self.now.table.now self.now.n mask r }
    {
        if r == 0 {
            return is_fit(mask, 1);
        }
        let m = r - 1;
        if self.n <= m {
            return false;
        }
        is_fit(mask, shape_of(kind(self.table, m)).class)
    }

    // Whether the three references name what the kind asks for.
    #[tactic(auto, unfolding(crate::specs::Form::refs_ok, crate::specs::Kinds::whole_shape))]
    fn are_refs_ok(&self) -> bool
        ensures { result ≡ refs_ok self.now.table.now self.now.n }
    {
        let [a, b, c] = self.shape.refs;
        self.is_ref_ok(a, self.cell(cells::A))
            && self.is_ref_ok(b, self.cell(cells::B))
            && self.is_ref_ok(c, self.cell(cells::C))
    }

    // Whether each number is no larger than the kind allows.
    #[tactic(auto, unfolding(crate::specs::Form::numbers_ok, crate::specs::Form::number_ok, crate::specs::Kinds::whole_shape))]
    fn are_numbers_ok(&self) -> bool
        ensures { result ≡ numbers_ok self.now.table.now self.now.n }
    {
        let [p, q, r, s] = self.shape.most;
        self.cell(cells::P) <= p
            && self.cell(cells::Q) <= q
            && self.cell(cells::R) <= r
            && self.cell(cells::S) <= s
    }

    // Whether the bytes that the node names lie in a symbol of len bytes.
    #[tactic(auto, unfolding(crate::specs::Form::range_ok, crate::specs::Kinds::whole_shape))]
    fn is_range_ok(&self, len: usize) -> bool
        ensures { result ≡ range_ok self.now.table.now len self.now.n }
    {
        !self.shape.ranged || self.cell(cells::P) + self.cell(cells::Q) <= len
    }

    // Whether the cells that no kind uses are 0.
    #[tactic(auto, unfolding(crate::specs::Form::rest_ok))]
    fn is_rest_ok(&self) -> bool
        ensures { result ≡ rest_ok self.now.table.now self.now.n }
    {
        self.cell(cells::FROM) == 0 && self.cell(cells::TO) == 0 && self.cell(cells::LAST) == 0
    }

    // Whether the node stands as high as it says: a place as high as what it holds, anything else one above.
    #[tactic(auto, unfolding(crate::specs::Form::height_ok))]
    fn is_height_ok(&self) -> bool
        ensures { result ≡ height_ok self.now.table.now self.now.n }
    {
        let a = height(self.table, self.cell(cells::A));
        let b = height(self.table, self.cell(cells::B));
        let c = height(self.table, self.cell(cells::C));
        let top = a.max(b).max(c);
        let h = self.cell(cells::HEIGHT);
        if kind(self.table, self.n) <= kinds::TYPE_PLACE {
            return h == top;
        }
        h == top + 1
    }

    // Whether the node is well formed, in a table for a symbol of len bytes.
    #[tactic(auto, unfolding(crate::specs::Form::node_ok, crate::specs::Kinds::whole_shape))]
    fn is_ok(&self, len: usize) -> bool
        ensures { result ≡ node_ok self.now.table.now len self.now.n }
    {
        self.shape.class != 0
            && self.are_refs_ok()
            && self.are_numbers_ok()
            && self.is_range_ok(len)
            && self.is_rest_ok()
            && self.is_height_ok()
    }
}

// Whether each whole node of the table is well formed, for a symbol of len bytes.
pub fn is_well_formed(table: &[u32], len: usize) -> bool
    ensures { result ≡ well_formed table.now len (nodes table.now) }
{
    (0..room(table)).all(|n| node_at(table, n).is_ok(len))
}

// The text of a node into a lent buffer: the crate's Serializer over the node table. Once something did not fit,
// nothing more is visited.
#![tactic(auto)]

ghost use Rattle.std.specs.Prelude.{◌≡◌, ◌<◌, ◌≤◌, ◌-◌, ◌⊎◌, length};
ghost use Rattle.scan.specs.Bytes.{pick};
ghost use Rattle.node.specs.Cells as cells;
ghost use Rattle.node.specs.Cells.{cell_of, KIND};
ghost use Rattle.node.specs.Kind.{kind_number, Alias, Enum, MemberFunction, MemberFunctionPointer, NonMemberFunction, Ptr, RValueRef};
ghost use Rattle.text.specs.Spaces.{write_space};
ghost use Rattle.text.specs.Emit.{cut, unless, ◌⨾◌, put};
ghost use Rattle.text.specs.Buffer.{Writes};
ghost use Rattle.serializer.specs.Serializer.{serialize, write_pre, write_return, write_pointee, write_post, write_types, write_one_name, write_scope, write_first, write_parsed, write_name, write_own_name, write_own_operator, write_tmpl_params, write_base_class_descriptor, no_return, is_empty};
ghost use Rattle.serializer.specs.Lists.{last_ones, last_entry};
ghost use Rattle.serializer.specs.Pieces.{guard_of, cast_of};
ghost use Rattle.writer.specs.Written.{text_of, written};
ghost use Rattle.writer.specs.Source.{tree_at};

use letters::storage;
use meaning::kid;
use node::{cells, kind, kinds};
use operators::CONVERSION;
use serializer::flags::{NAME_ONLY, NO_FUNCTION_RETURNS, has};
use serializer::lists::{
    count_some, first_entry, guard_at, has_some, is_literal, kind_at, number, skip_packs,
    without_last,
};
use serializer::names::{put_base_class, put_colons, put_name_space, put_operator, put_plain_name};
use serializer::types::{
    put_apart_if, put_calling_conv, put_class_name, put_closing, put_comma_if, put_flat,
    put_func_class, put_hug, put_mark, put_memfn_qualifiers, put_opening, put_plain,
    put_storage_class, put_var_kind,
};
use text::buffer::Buffer;
use text::spaces::Spacing;
use text::words;

// What a text is written from: a table, the symbol that its names are parts of, and the flags.
#[derive(Clone, Copy)]
pub struct Source<'a> {
    pub table: &'a [u32],
    pub symbol: &'a [u8],
    pub flags: u32,
}

// The text of the ParseResult that r names, and its length; None where it is cut.
pub fn write(table: &[u32], symbol: &[u8], text: &mut [u8], r: usize, flags: u32) -> Option<usize>
    ensures { (result ≡ written (length text.old) (text_of flags table.now symbol.now r))
        × (text.new ≡ cut text.old (text_of flags table.now symbol.now r)) }
{
    let mut out = Buffer { bytes: text, at: 0 };
    let source = Source {
        table,
        symbol,
        flags,
    };
    source.parsed(&mut out, r);
    if out.is_past() {
        return None;
    }
    Some(out.at)
}

impl Source<'_> {
    // A ParseResult.
    #[cycle(writers)]
    fn parsed(&self, text: &mut Buffer, r: usize)
        ensures { Writes (serialize self.now.flags (tree_at self.now r)) text.old text.new }
    {
        if text.is_past() || kind_at(self.table, r) != kinds::PARSE_RESULT {
            return;
        }
        let m = r - 1;
        let ty = kid(self.table, m, cells::B);
        self.leading(text, ty);
        self.name(text, kid(self.table, m, cells::A), r);
        if !has(self.flags, NAME_ONLY) {
            self.back(text, ty);
        }
    }

    // The first half of a ParseResult's type, unless the flags leave it out.
    #[cycle(writers)]
    fn leading(&self, text: &mut Buffer, r: usize)
        ensures { Writes (unless (no_return self.now.flags) (write_pre self.now.flags (tree_at self.now r))) text.old text.new }
    {
        if has(self.flags, NAME_ONLY) || has(self.flags, NO_FUNCTION_RETURNS) {
            return;
        }
        self.front(text, r);
    }

    // The first half of a type, an arm for each kind.
    #[cycle(writers)]
    fn front(&self, text: &mut Buffer, r: usize)
        ensures { Writes (write_pre self.now.flags (tree_at self.now r)) text.old text.new }
    {
        if text.is_past() || r == 0 {
            return;
        }
        let m = r - 1;
        let k = kind(self.table, m);
        let a = kid(self.table, m, cells::A);
        match k {
            kinds::MEMBER_FUNCTION => {
                put_func_class(text, self.flags, number(self.table, m, cells::R));
                self.front(text, a);
                put_calling_conv(text, self.flags, number(self.table, m, cells::Q));
            }
            kinds::MEMBER_FUNCTION_POINTER => self.member(text, r),
            kinds::NON_MEMBER_FUNCTION => {
                self.front(text, a);
                put_calling_conv(text, self.flags, number(self.table, m, cells::Q));
            }
            kinds::PTR..=kinds::RVALUE_REF => self.pointer(text, r),
            kinds::ARRAY => {
                self.front(text, a);
                put_storage_class(text, self.flags, number(self.table, m, cells::P));
            }
            kinds::VAR => {
                put_var_kind(text, number(self.table, m, cells::Q));
                self.front(text, a);
                put_storage_class(text, self.flags, number(self.table, m, cells::P));
            }
            kinds::ALIAS..=kinds::ENUM => self.class(text, r),
            _ => put_plain(
                text,
                self.flags,
                k,
                number(self.table, m, cells::P),
                number(self.table, m, cells::Q),
            ),
        }
    }

    // A MemberFunctionPointer.
    #[cycle(writers)]
    fn member(&self, text: &mut Buffer, r: usize)
        requires { (0 < r) × (cell_of self.now.table.now (r - 1) KIND ≡ kind_number MemberFunctionPointer) }
        ensures { Writes (write_pre self.now.flags (tree_at self.now r)) text.old text.new }
    {
        let m = r - 1;
        self.front(text, kid(self.table, m, cells::A));
        put_opening(text, self.flags, number(self.table, m, cells::Q));
        text.put_space(Spacing::Any);
        text.put_space(Spacing::Any);
        self.name(text, kid(self.table, m, cells::C), r);
        text.put_word(words::MEMBER);
    }

    // A Ptr, a Ref or an RValueRef.
    #[cycle(writers)]
    fn pointer(&self, text: &mut Buffer, r: usize)
        requires { (0 < r) × (kind_number Ptr ≤ cell_of self.now.table.now (r - 1) KIND) × (cell_of self.now.table.now (r - 1) KIND ≤ kind_number RValueRef) }
        ensures { Writes (write_pre self.now.flags (tree_at self.now r)) text.old text.new }
    {
        let m = r - 1;
        self.pointee(text, kid(self.table, m, cells::A));
        put_hug(text, self.flags);
        put_mark(text, kind(self.table, m));
        put_storage_class(text, self.flags, number(self.table, m, cells::P));
    }

    // What stands before `*`, `&` or `&&`.
    #[cycle(writers)]
    fn pointee(&self, text: &mut Buffer, r: usize)
        ensures { Writes (write_pointee self.now.flags (tree_at self.now r) (write_pre self.now.flags (tree_at self.now r)) (write_return self.now.flags (tree_at self.now r))) text.old text.new }
    {
        if r == 0 {
            return;
        }
        let m = r - 1;
        let k = kind(self.table, m);
        match k {
            kinds::MEMBER_FUNCTION => {
                self.front(text, kid(self.table, m, cells::A));
                put_opening(text, self.flags, number(self.table, m, cells::Q));
            }
            kinds::NON_MEMBER_FUNCTION => {
                self.front(text, kid(self.table, m, cells::A));
                put_opening(text, self.flags, number(self.table, m, cells::Q));
            }
            kinds::ARRAY => {
                self.front(text, r);
                text.put_space(Spacing::Any);
                text.put(b'(');
            }
            _ => self.front(text, r),
        }
    }

    // An Alias, a Struct, a Union, a Class or an Enum.
    #[cycle(writers)]
    fn class(&self, text: &mut Buffer, r: usize)
        requires { (0 < r) × (kind_number Alias ≤ cell_of self.now.table.now (r - 1) KIND) × (cell_of self.now.table.now (r - 1) KIND ≤ kind_number Enum) }
        ensures { Writes (write_pre self.now.flags (tree_at self.now r)) text.old text.new }
    {
        let m = r - 1;
        put_class_name(text, self.flags, kind(self.table, m));
        self.name(text, kid(self.table, m, cells::A), r);
        put_storage_class(text, self.flags, number(self.table, m, cells::P));
    }

    // The second half of a type.
    #[cycle(writers)]
    fn back(&self, text: &mut Buffer, r: usize)
        ensures { Writes (write_post self.now.flags (tree_at self.now r)) text.old text.new }
    {
        if text.is_past() || r == 0 {
            return;
        }
        let m = r - 1;
        let k = kind(self.table, m);
        let a = kid(self.table, m, cells::A);
        match k {
            kinds::MEMBER_FUNCTION => self.function(text, r),
            kinds::MEMBER_FUNCTION_POINTER => self.returned(text, r),
            kinds::NON_MEMBER_FUNCTION => self.function(text, r),
            kinds::VBTABLE => {
                self.scope(text, a);
                text.put_word(words::VBTABLE_END);
            }
            kinds::VFTABLE => self.vftable(text, a),
            kinds::VCALL_THUNK => put_flat(text, self.flags, number(self.table, m, cells::P)),
            kinds::PTR..=kinds::RVALUE_REF => {
                put_closing(text, kind_at(self.table, a));
                self.back(text, a);
            }
            kinds::ARRAY => {
                text.put(b'[');
                text.put_decimal(number(self.table, m, cells::Q));
                text.put(b']');
                self.back(text, a);
            }
            kinds::VAR => self.back(text, a),
            _ => {}
        }
    }

    // The second half of a function.
    #[cycle(writers)]
    fn function(&self, text: &mut Buffer, r: usize)
        requires { (0 < r) × ((cell_of self.now.table.now (r - 1) KIND ≡ kind_number MemberFunction) ⊎ (cell_of self.now.table.now (r - 1) KIND ≡ kind_number NonMemberFunction)) }
        ensures { Writes (write_post self.now.flags (tree_at self.now r)) text.old text.new }
    {
        let m = r - 1;
        text.put(b'(');
        self.types(text, kid(self.table, m, cells::B));
        text.put(b')');
        put_memfn_qualifiers(text, self.flags, number(self.table, m, cells::P));
        self.back(text, kid(self.table, m, cells::A));
    }

    // The second half of a MemberFunctionPointer.
    #[cycle(writers)]
    fn returned(&self, text: &mut Buffer, r: usize)
        requires { (0 < r) × (cell_of self.now.table.now (r - 1) KIND ≡ kind_number MemberFunctionPointer) }
        ensures { Writes (write_post self.now.flags (tree_at self.now r)) text.old text.new }
    {
        let m = r - 1;
        text.put_word(words::BETWEEN);
        self.types(text, kid(self.table, m, cells::B));
        text.put(b')');
        self.back(text, kid(self.table, m, cells::A));
        let quals = number(self.table, m, cells::P);
        put_apart_if(text, Spacing::Any, has(quals, storage::CONST), words::CONST);
    }

    // Whom a virtual function table is for.
    #[cycle(writers)]
    fn vftable(&self, text: &mut Buffer, r: usize)
        ensures { Writes (unless (is_empty (tree_at self.now r)) (put "{for `" ⨾ write_scope self.now.flags (tree_at self.now r) ⨾ put "'}")) text.old text.new }
    {
        if r == 0 {
            return;
        }
        text.put_word(words::FOR);
        self.scope(text, r);
        text.put_word(words::FOR_END);
    }

    // The types of a list.
    #[cycle(writers)]
    fn types(&self, text: &mut Buffer, r: usize)
        ensures { Writes (write_types self.now.flags (tree_at self.now r)) text.old text.new }
    {
        if text.is_past() {
            return;
        }
        self.run(text, r, count_some(self.table, r));
    }

    // The last n entries of a list that are not empty packs: the front half, and then the back half.
    #[cycle(writers)]
    fn run(&self, text: &mut Buffer, r: usize, n: usize)
        ensures { Writes (last_ones self.now.flags (tree_at self.now r) n) text.old text.new }
    {
        if text.is_past() || r == 0 || n == 0 {
            return;
        }
        if n == 1 {
            self.entry(text, skip_packs(self.table, r));
            return;
        }
        let h = n / 2;
        let p = without_last(self.table, r, h);
        self.run(text, p, n - h);
        self.run(text, r, h);
    }

    // The last entry of a list, with its comma.
    #[cycle(writers)]
    fn entry(&self, text: &mut Buffer, r: usize)
        ensures { Writes (last_entry self.now.flags (tree_at self.now r)) text.old text.new }
    {
        if r == 0 {
            return;
        }
        let m = r - 1;
        let b = kid(self.table, m, cells::B);
        put_comma_if(
            text,
            self.flags,
            has_some(self.table, kid(self.table, m, cells::A)),
        );
        self.front(text, b);
        self.back(text, b);
    }

    // The symbol that r names, which `up` refers to.
    #[cycle(writers)]
    fn name(&self, text: &mut Buffer, r: usize, up: usize)
        requires { r < up }
        ensures { Writes (write_name self.now.flags (guard_of (tree_at self.now up)) (cast_of self.now.flags (tree_at self.now up)) (tree_at self.now r)) text.old text.new }
    {
        if text.is_past() || r == 0 {
            return;
        }
        let m = r - 1;
        let a = kid(self.table, m, cells::A);
        let b = kid(self.table, m, cells::B);
        let literal = is_literal(self.table, a);
        put_name_space(text, self.flags);
        put_apart_if(text, Spacing::Any, literal, words::LITERAL);
        self.scope(text, b);
        put_colons(text, b == 0, literal);
        self.own(text, a, b, up);
    }

    // A symbol's own name a, in the scope b.
    #[cycle(writers)]
    fn own(&self, text: &mut Buffer, a: usize, b: usize, up: usize)
        requires { (a < up) × (b < up) }
        ensures { Writes (write_own_name (guard_of (tree_at self.now up)) (cast_of self.now.flags (tree_at self.now up)) (is_empty (tree_at self.now b)) (write_first self.now.flags (tree_at self.now b)) (tree_at self.now a) (write_one_name self.now.flags (tree_at self.now a)) (write_parsed self.now.flags (tree_at self.now a))) text.old text.new }
    {
        if a == 0 {
            return;
        }
        let k = kind(self.table, a - 1);
        match k {
            kinds::OPERATOR => self.own_operator(text, b, up, number(self.table, a - 1, cells::P)),
            kinds::PARSED_NAME => self.parsed(text, kid(self.table, a - 1, cells::A)),
            kinds::ANONYMOUS_ID..=kinds::ANONYMOUS => {}
            _ => self.one(text, a),
        }
    }

    // An operator as a symbol's own name, in the scope b.
    #[cycle(writers)]
    fn own_operator(&self, text: &mut Buffer, b: usize, up: usize, op: u32)
        requires { b < up }
        ensures { Writes (write_own_operator (guard_of (tree_at self.now up)) (cast_of self.now.flags (tree_at self.now up)) (is_empty (tree_at self.now b)) (write_first self.now.flags (tree_at self.now b)) op) text.old text.new }
    {
        match op {
            operators::CTOR => self.structor(text, b),
            operators::DTOR => self.destructor(text, b),
            operators::CONVERSION => self.cast(text, up),
            operators::VBTABLE => text.put_word(words::VBTABLE),
            operators::LITERAL_OPERATOR_NAME => {}
            _ => put_operator(text, guard_at(self.table, up), op),
        }
    }

    // The scope's first name, as a constructor.
    #[cycle(writers)]
    fn structor(&self, text: &mut Buffer, b: usize)
        ensures { Writes (pick (is_empty (tree_at self.now b)) (put "[invalid]") (write_first self.now.flags (tree_at self.now b))) text.old text.new }
    {
        if b == 0 {
            text.put_word(words::INVALID);
            return;
        }
        self.one(text, first_entry(self.table, b));
    }

    // The scope's first name, as a destructor: an arm of its own in the crate, and so a promise of its own.
    #[cycle(writers)]
    fn destructor(&self, text: &mut Buffer, b: usize)
        ensures { Writes (pick (is_empty (tree_at self.now b)) (put "[invalid]") (put "~" ⨾ write_first self.now.flags (tree_at self.now b))) text.old text.new }
    {
        if b == 0 {
            text.put_word(words::INVALID);
            return;
        }
        text.put(b'~');
        self.one(text, first_entry(self.table, b));
    }

    // A conversion to what the function of `up` returns.
    #[cycle(writers)]
    fn cast(&self, text: &mut Buffer, up: usize)
        ensures { Writes (cast_of self.now.flags (tree_at self.now up)) text.old text.new }
    {
        if kind_at(self.table, up) != kinds::PARSE_RESULT {
            put_operator(text, 0, CONVERSION);
            return;
        }
        let ty = kid(self.table, up - 1, cells::B);
        if kind_at(self.table, ty) != kinds::MEMBER_FUNCTION {
            put_operator(text, 0, CONVERSION);
            return;
        }
        let to = kid(self.table, ty - 1, cells::A);
        text.put_word(words::OPERATOR);
        self.front(text, to);
        self.back(text, to);
    }

    // One name of a scope, or a template's.
    #[cycle(writers)]
    fn one(&self, text: &mut Buffer, r: usize)
        ensures { Writes (write_one_name self.now.flags (tree_at self.now r)) text.old text.new }
    {
        if text.is_past() || r == 0 {
            return;
        }
        let m = r - 1;
        let k = kind(self.table, m);
        let a = kid(self.table, m, cells::A);
        match k {
            kinds::OPERATOR => put_operator(text, 0, number(self.table, m, cells::P)),
            kinds::RTTI_TYPE_DESCRIPTOR => {
                text.put_space(Spacing::Any);
                self.front(text, a);
                text.put_word(words::TYPE_DESCRIPTOR);
            }
            kinds::RTTI_BASE_CLASS_DESCRIPTOR => self.descriptor(text, m),
            kinds::TEMPLATE => {
                self.one(text, a);
                self.params(text, kid(self.table, m, cells::B));
            }
            kinds::PARSED_NAME => {
                text.put(b'`');
                self.parsed(text, a);
                text.put(b'\'');
            }
            _ => put_plain_name(
                self.symbol,
                text,
                k,
                number(self.table, m, cells::P),
                number(self.table, m, cells::Q),
            ),
        }
    }

    // An RTTI base class descriptor, node n.
    fn descriptor(&self, text: &mut Buffer, n: usize)
        ensures { Writes (write_space ⨾ write_base_class_descriptor self.now.flags (cell_of self.now.table.now n cells.P) (cell_of self.now.table.now n cells.Q) (cell_of self.now.table.now n cells.R) (cell_of self.now.table.now n cells.S)) text.old text.new }
    {
        text.put_space(Spacing::Any);
        put_base_class(
            text,
            self.flags,
            number(self.table, n, cells::P),
            number(self.table, n, cells::Q),
            number(self.table, n, cells::R),
            number(self.table, n, cells::S),
        );
    }

    // A template's parameters.
    #[cycle(writers)]
    fn params(&self, text: &mut Buffer, r: usize)
        ensures { Writes (write_tmpl_params (tree_at self.now r) (write_types self.now.flags (tree_at self.now r))) text.old text.new }
    {
        text.put(b'<');
        if r == 0 {
            text.put(b'>');
            return;
        }
        self.types(text, r);
        text.put_space(Spacing::Close);
        text.put(b'>');
    }

    // A scope, outermost name first: from the last place to the first.
    #[cycle(writers)]
    fn scope(&self, text: &mut Buffer, r: usize)
        ensures { Writes (write_scope self.now.flags (tree_at self.now r)) text.old text.new }
    {
        let mut p = r;
        while 0 < p {
            if text.is_past() {
                return;
            }
            let m = p - 1;
            self.one(text, kid(self.table, m, cells::B));
            p = kid(self.table, m, cells::A);
            put_colons(text, p == 0, false);
        }
    }
}

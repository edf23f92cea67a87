// Builds a table with a node of every kind for a symbol of three bytes, then damages each of its cells in six ways.
// Prints, a line for each node and a group for each of its cells, whether the table is still well formed.
#![tactic(auto)]

ghost use Rattle.std.specs.Prelude.{◌<◌};

use node::{Node, kinds};
use std::io;
use std::io::{Stdout, Write};

const COUNT: usize = 69;

// kind, height, a, b, c, p, q, r, s
const NODES: [[u32; 9]; COUNT] = [
    [kinds::NON_TEMPLATE, 1, 0, 0, 0, 1, 1, 0, 0], // 0
    [kinds::TEMPLATE, 2, 1, 0, 0, 0, 0, 0, 0], // 1
    [kinds::AS_INTERFACE, 1, 0, 0, 0, 1, 1, 0, 0], // 2
    [kinds::ANONYMOUS_ID, 1, 0, 0, 0, 1, 1, 0, 0], // 3
    [kinds::ANONYMOUS, 1, 0, 0, 0, 0, 0, 0, 0], // 4
    [kinds::DISCRIMINATOR, 1, 0, 0, 0, 7, 0, 0, 0], // 5
    [kinds::MD5, 1, 0, 0, 0, 0, 2, 0, 0], // 6
    [kinds::OPERATOR, 1, 0, 0, 0, 74, 0, 0, 0], // 7
    [kinds::VOID + 7, 1, 0, 0, 0, 0, 0, 0, 0], // 8 Int
    [kinds::RTTI_TYPE_DESCRIPTOR, 2, 9, 0, 0, 1, 0, 0, 0], // 9
    [kinds::RTTI_BASE_CLASS_DESCRIPTOR, 1, 0, 0, 0, 1, 2, 3, 4], // 10
    [kinds::NAME_PLACE, 1, 0, 1, 0, 0, 0, 0, 0], // 11
    [kinds::NAME_PLACE, 1, 12, 3, 0, 0, 0, 0, 0], // 12
    [kinds::SYMBOL, 3, 2, 13, 0, 0, 0, 0, 0], // 13
    [kinds::SYMBOL, 2, 8, 0, 0, 0, 0, 0, 0], // 14
    [kinds::OUTER_SYMBOL, 2, 7, 0, 0, 0, 0, 0, 0], // 15
    [kinds::NONE, 1, 0, 0, 0, 0, 0, 0, 0], // 16
    [kinds::PARSE_RESULT, 3, 16, 17, 0, 0, 0, 0, 0], // 17
    [kinds::PARSED_NAME, 4, 18, 0, 0, 0, 0, 0, 0], // 18
    [kinds::NAME_PLACE, 4, 13, 19, 0, 0, 0, 0, 0], // 19
    [kinds::TYPE_PLACE, 1, 0, 9, 0, 0, 0, 0, 0], // 20
    [kinds::VAR_ARGS, 1, 0, 0, 0, 0, 0, 0, 0], // 21
    [kinds::TYPE_PLACE, 1, 21, 22, 0, 0, 0, 0, 0], // 22
    [kinds::NON_MEMBER_FUNCTION, 2, 9, 23, 0, 3, 4, 0, 0], // 23
    [kinds::MEMBER_FUNCTION, 2, 17, 23, 0, 511, 4, 255, 0], // 24
    [kinds::MEMBER_FUNCTION_POINTER, 4, 9, 23, 14, 64, 2, 1, 0], // 25
    [kinds::VBTABLE, 5, 20, 0, 0, 1, 0, 0, 0], // 26
    [kinds::VFTABLE, 1, 0, 0, 0, 0, 0, 0, 0], // 27
    [kinds::VCALL_THUNK, 1, 0, 0, 0, 4294967295, 1, 0, 0], // 28
    [kinds::TEMPLATE_PARAMETER_WITH_INDEX, 1, 0, 0, 0, 1, 0, 0, 0], // 29
    [kinds::THREAD_SAFE_STATIC_GUARD, 1, 0, 0, 0, 2, 0, 0, 0], // 30
    [kinds::CONSTANT, 1, 0, 0, 0, 3, 0, 0, 0], // 31
    [kinds::CONSTANT_STRING, 1, 0, 0, 0, 0, 3, 0, 0], // 32
    [kinds::PTR, 2, 9, 0, 0, 1, 0, 0, 0], // 33
    [kinds::REF, 5, 26, 0, 0, 2, 0, 0, 0], // 34
    [kinds::RVALUE_REF, 3, 24, 0, 0, 0, 0, 0, 0], // 35
    [kinds::ARRAY, 2, 9, 0, 0, 1, 20, 0, 0], // 36
    [kinds::VAR, 3, 37, 0, 0, 0, 4, 0, 0], // 37
    [kinds::ALIAS, 4, 14, 0, 0, 1, 0, 0, 0], // 38
    [kinds::STRUCT, 4, 14, 0, 0, 1, 0, 0, 0], // 39
    [kinds::UNION, 4, 14, 0, 0, 1, 0, 0, 0], // 40
    [kinds::CLASS, 4, 14, 0, 0, 1, 0, 0, 0], // 41
    [kinds::ENUM, 4, 14, 0, 0, 1, 0, 0, 0], // 42
    [kinds::VOID, 1, 0, 0, 0, 1, 0, 0, 0], // 43 Void
    [kinds::VOID + 1, 1, 0, 0, 0, 1, 0, 0, 0], // 44 Bool
    [kinds::VOID + 2, 1, 0, 0, 0, 1, 0, 0, 0], // 45 Char
    [kinds::VOID + 3, 1, 0, 0, 0, 1, 0, 0, 0], // 46 Schar
    [kinds::VOID + 4, 1, 0, 0, 0, 1, 0, 0, 0], // 47 Uchar
    [kinds::VOID + 5, 1, 0, 0, 0, 1, 0, 0, 0], // 48 Short
    [kinds::VOID + 6, 1, 0, 0, 0, 1, 0, 0, 0], // 49 Ushort
    [kinds::VOID + 7, 1, 0, 0, 0, 1, 0, 0, 0], // 50 Int
    [kinds::VOID + 8, 1, 0, 0, 0, 1, 0, 0, 0], // 51 Uint
    [kinds::VOID + 9, 1, 0, 0, 0, 1, 0, 0, 0], // 52 Long
    [kinds::VOID + 10, 1, 0, 0, 0, 1, 0, 0, 0], // 53 Ulong
    [kinds::INT64, 1, 0, 0, 0, 1, 0, 0, 0], // 54
    [kinds::VOID + 12, 1, 0, 0, 0, 1, 0, 0, 0], // 55 Uint64
    [kinds::VOID + 13, 1, 0, 0, 0, 1, 0, 0, 0], // 56 Int128
    [kinds::UINT128, 1, 0, 0, 0, 1, 0, 0, 0], // 57
    [kinds::VOID + 15, 1, 0, 0, 0, 1, 0, 0, 0], // 58 Wchar
    [kinds::VOID + 16, 1, 0, 0, 0, 1, 0, 0, 0], // 59 Char8
    [kinds::VOID + 17, 1, 0, 0, 0, 1, 0, 0, 0], // 60 Char16
    [kinds::VOID + 18, 1, 0, 0, 0, 1, 0, 0, 0], // 61 Char32
    [kinds::VOID + 19, 1, 0, 0, 0, 1, 0, 0, 0], // 62 Float
    [kinds::VOID + 20, 1, 0, 0, 0, 1, 0, 0, 0], // 63 Double
    [kinds::LDOUBLE, 1, 0, 0, 0, 1, 0, 0, 0], // 64
    [kinds::EMPTY_PARAMETER_PACK, 1, 0, 0, 0, 0, 0, 0, 0], // 65
    [kinds::NULLPTR, 1, 0, 0, 0, 0, 0, 0, 0], // 66
    [kinds::RTTI_TYPE, 1, 0, 0, 0, 0, 0, 0, 0], // 67
    [kinds::PARSE_RESULT, 4, 14, 38, 0, 5, 0, 0, 0], // 68
];

fn fill(table: &mut [u32]) {
    for (n, row) in NODES.iter().enumerate() {
        let [kind, height, a, b, c, p, q, r, s] = *row;
        let x = Node {
            kind,
            height,
            a,
            b,
            c,
            p,
            q,
            r,
            s,
        };
        node::put_node(table, n, x);
    }
}

fn put_verdict(out: &mut Stdout, table: &[u32]) -> io::Result<()> {
    if form::is_well_formed(table, 3) {
        out.write_all(b"1")
    } else {
        out.write_all(b"0")
    }
}

// Its old value and one, and values that some kind could have, in one cell, which is whole again afterwards.
fn try_cell(out: &mut Stdout, table: &mut [u32], i: usize) -> io::Result<()> {
    let Some(&old) = table.get(i) else {
        return Ok(());
    };
    out.write_all(b" ")?;
    for damage in [old.wrapping_add(1), 0, 1, 10, 64, u32::MAX] {
        table[i] = damage;
        put_verdict(out, table)?;
    }
    table[i] = old;
    Ok(())
}

fn try_node(out: &mut Stdout, table: &mut [u32], n: usize) -> io::Result<()>
    requires { n < COUNT }
{
    let kind = node::kind(table, n);
    write!(out, "{n} kind {kind}")?;
    for i in n * node::CELLS..(n + 1) * node::CELLS {
        try_cell(out, table, i)?;
    }
    out.write_all(b"\n")
}

fn main(rt: HostRuntime) -> io::Result<()> {
    let mut out = rt.stdout();
    let mut table = [0u32; 833];
    fill(&mut table);
    put_verdict(&mut out, &table)?;
    out.write_all(b"\n")?;
    for n in 0..COUNT {
        try_node(&mut out, &mut table, n)?;
    }
    Ok(())
}

// The node table: a node is twelve cells. Writing a node, reading a cell.
#![tactic(auto)]

ghost use Rattle.std.specs.Prelude.{◌≡◌, ◌<◌, ◌+◌, ◌*◌, ◌^◌};
ghost use Rattle.node.specs.Cells.{nodes, cell_of, stored, height_at, KIND};

pub mod cells;
pub mod kinds;

pub const CELLS: usize = 12;

#[derive(Clone, Copy)]
pub struct Node {
    pub kind: u32,
    pub height: u32,
    pub a: u32,
    pub b: u32,
    pub c: u32,
    pub p: u32,
    pub q: u32,
    pub r: u32,
    pub s: u32,
}

// How many whole nodes the table has room for.
pub fn room(table: &[u32]) -> usize
    ensures { result ≡ nodes table.now }
{
    table.len() / CELLS
}

// Stores node n where there is room for it. A store for each cell: `copy_from_slice` takes twice the instructions here.
#[tactic(auto, unfolding(crate::specs::Cells::stored))]
pub fn put_node(table: &mut [u32], n: usize, x: Node)
    ensures { table.new ≡ stored table.old n x }
{
    if n < room(table) {
        let i = n * CELLS;
        let node = &mut table[i..i + CELLS];
        node[cells::KIND] = x.kind;
        node[cells::HEIGHT] = x.height;
        node[cells::FROM] = 0;
        node[cells::TO] = 0;
        node[cells::A] = x.a;
        node[cells::B] = x.b;
        node[cells::C] = x.c;
        node[cells::P] = x.p;
        node[cells::Q] = x.q;
        node[cells::R] = x.r;
        node[cells::S] = x.s;
        node[cells::LAST] = 0;
    }
}

// Cell j of node n, or 0 where there is none.
#[tactic(auto, unfolding(crate::specs::Cells::cell_of))]
pub fn cell(table: &[u32], n: usize, j: usize) -> usize
    ensures { (result ≡ cell_of table.now n j) × (result < 2 ^ 32) }
{
    if room(table) <= n || CELLS <= j {
        return 0;
    }
    let i = n * CELLS + j;
    table[i] as usize
}

// The kind of node n, or 0 where there is none.
pub fn kind(table: &[u32], n: usize) -> u32
    ensures { result ≡ cell_of table.now n KIND }
{
    cell(table, n, cells::KIND) as u32
}

// The height of what reference r names; 0 where it names nothing.
#[tactic(auto, unfolding(crate::specs::Cells::height_at))]
pub fn height(table: &[u32], r: usize) -> usize
    ensures { (result ≡ height_at table.now r) × (result < 2 ^ 32) }
{
    if r == 0 {
        return 0;
    }
    cell(table, r - 1, cells::HEIGHT)
}

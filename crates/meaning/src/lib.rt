// What nodes mean, and whether two mean the same.
#![tactic(auto)]

ghost use Rattle.std.specs.Prelude.{◌≡◌, List, ℕ, ◌-◌, ◌≤◌, ◌<◌, ◌^◌, eqb, true, false, Err};
ghost use Rattle.meaning.specs.declared.Unequal.TheVariants.{Spent};
ghost use Rattle.node.specs.Cells as cells;
ghost use Rattle.node.specs.Cells.{nodes, cell_of, KIND};
ghost use Rattle.meaning.specs.Tree.{part, decoded, content_of, content_number, tree_of, kid_of, is_blank, eq_list, eq_tree, eq_content, eq_own, eq_numbers, eq_kids, eq_but_first};
ghost use Rattle.meaning.specs.Links.{Links, Judged};

pub mod links;

use crate::links::{LINKS, find, link, note, noted};
use node::{CELLS, cells, kinds};
use strings::encoded::read_character;

// The reference in cell j of node n, 0 where it names no earlier node.
#[tactic(auto, unfolding(crate::specs::Tree::kid_of))]
pub fn kid(table: &[u32], n: usize, j: usize) -> usize
    ensures { (result ≡ kid_of table.now n j) × (result ≤ n) }
{
    let r = node::cell(table, n, j);
    if r <= n { r } else { 0 }
}

// The n bytes of the symbol from s on; none where it has them not all.
#[tactic(auto, unfolding(crate::specs::Tree::part))]
pub fn part_of(symbol: &[u8], s: usize, n: usize) -> &[u8]
    ensures { result.now ≡ part symbol.now s n }
{
    if s <= symbol.len() && n <= symbol.len() - s {
        return &symbol[s..s + n];
    }
    &symbol[..0]
}

// Whether two encoded strings stand for the same bytes: an arm, and a lemma, for each way that they end or differ.
fn same_decoded(a: &[u8], b: &[u8]) -> bool
    ensures { result ≡ eq_list (decoded a.now) (decoded b.now) }
{
    let mut i = 0;
    let mut j = 0;
    loop {
        let x = read_character(a, i);
        let y = read_character(b, j);
        match x {
            Ok((v, n)) => match y {
                Ok((w, m)) => {
                    if v != w {
                        break false;
                    }
                    i += n;
                    j += m;
                }
                Err(_) => {
                    break false;
                }
            },
            Err(_) => match y {
                Ok((_, _)) => {
                    break false;
                }
                Err(_) => {
                    break true;
                }
            },
        }
    }
}

// Whether two parts of the symbol have the same bytes. Few nodes ask, so it stays out of the code that every node runs.
#[inline(never)]
#[tactic(auto, unfolding(crate::specs::Tree::eq_list))]
fn same_bytes(symbol: &[u8], s: usize, n: usize, t: usize, m: usize) -> bool
    ensures { result ≡ eq_list (part symbol.now s n) (part symbol.now t m) }
{
    part_of(symbol, s, n) == part_of(symbol, t, m)
}

// The same of two parts that are encoded strings.
#[inline(never)]
fn same_string(symbol: &[u8], s: usize, n: usize, t: usize, m: usize) -> bool
    ensures { result ≡ eq_list (decoded (part symbol.now s n)) (decoded (part symbol.now t m)) }
{
    same_decoded(part_of(symbol, s, n), part_of(symbol, t, m))
}

// What the first two numbers of a kind are: numbers, or a start and a length in the symbol,
// of bytes or of an encoded string.
#[derive(Clone, Copy)]
enum Content {
    Numbers,
    Bytes,
    Encoded,
}

#[tactic(auto, unfolding(crate::specs::Tree::content_of))]
fn content_of(kind: u32) -> Content
    ensures { content_of kind ≡ content_number result }
{
    match kind {
        kinds::MD5 | kinds::NON_TEMPLATE | kinds::AS_INTERFACE | kinds::ANONYMOUS_ID =>
            Content::Bytes,
        kinds::CONSTANT_STRING => Content::Encoded,
        _ => Content::Numbers,
    }
}

// Two nodes that the table has. So their cells are read without asking again.
// `c < 12` stays a clause: it is the bound of an index, and a type for a cell of a node would be no plainer.
#[derive(Clone, Copy)]
struct Pair<'a> {
    table: &'a [u32],
    symbol: &'a [u8],
    i: usize,
    j: usize,
    ghost first_held: { i < nodes table.now },
    ghost second_held: { j < nodes table.now },
}

impl<'a> Pair<'a> {
    // Cell c of both.
    #[tactic(auto, unfolding(node::specs::Cells::cell_of))]
    fn cells(&self, c: usize) -> (usize, usize)
        requires { c < 12 }
        ensures first { (result.0 ≡ cell_of self.now.table.now self.now.i c) × (result.0 < 2 ^ 32) }
        ensures second { (result.1 ≡ cell_of self.now.table.now self.now.j c) × (result.1 < 2 ^ 32) }
    {
        let first = self.table[self.i * CELLS + c];
        let second = self.table[self.j * CELLS + c];
        (first as usize, second as usize)
    }

    // What `kid` is, of both.
    #[tactic(auto, unfolding(crate::specs::Tree::kid_of))]
    fn kids(&self, c: usize) -> (usize, usize)
        requires { c < 12 }
        ensures first { (result.0 ≡ kid_of self.now.table.now self.now.i c) × (result.0 ≤ self.now.i) }
        ensures second { (result.1 ≡ kid_of self.now.table.now self.now.j c) × (result.1 ≤ self.now.j) }
    {
        let (r, q) = self.cells(c);
        (
            if r <= self.i { r } else { 0 },
            if q <= self.j { q } else { 0 },
        )
    }

    fn same_cell(&self, c: usize) -> bool
        requires { c < 12 }
        ensures { result ≡ eqb (cell_of self.now.table.now self.now.i c) (cell_of self.now.table.now self.now.j c) }
    {
        let (a, b) = self.cells(c);
        a == b
    }

    // What the numbers of the first are.
    fn content(&self) -> Content
        ensures { content_of (cell_of self.now.table.now self.now.i KIND) ≡ content_number result }
    {
        content_of(self.cells(cells::KIND).0 as u32)
    }

    // The bytes of the symbol that they name.
    fn bytes(&self) -> (&'a [u8], &'a [u8])
        ensures first { result.0.now ≡ part self.now.symbol.now (cell_of self.now.table.now self.now.i cells.P) (cell_of self.now.table.now self.now.i cells.Q) }
        ensures second { result.1.now ≡ part self.now.symbol.now (cell_of self.now.table.now self.now.j cells.P) (cell_of self.now.table.now self.now.j cells.Q) }
    {
        let (s, t) = self.cells(cells::P);
        let (n, m) = self.cells(cells::Q);
        (part_of(self.symbol, s, n), part_of(self.symbol, t, m))
    }

    // Nodes of one kind: their bytes, or the numbers in their place.
    #[tactic(auto, unfolding(crate::specs::Tree::eq_content, crate::specs::Tree::bytes_of))]
    fn same_content(&self) -> bool
        requires { cell_of self.now.table.now self.now.i KIND ≡ cell_of self.now.table.now self.now.j KIND }
        ensures { result ≡ eq_content self.now.table.now self.now.symbol.now self.now.i self.now.j }
    {
        let (s, t) = self.cells(cells::P);
        let (n, m) = self.cells(cells::Q);
        match self.content() {
            Content::Numbers => s == t && n == m,
            Content::Bytes => same_bytes(self.symbol, s, n, t, m),
            Content::Encoded => same_string(self.symbol, s, n, t, m),
        }
    }

    // The nodes, without what they refer to.
    #[inline(always)]
    #[tactic(auto, using(crate::proofs::Own::own_is))]
    fn same_own(&self) -> bool
        ensures { result ≡ eq_own self.now.table.now self.now.symbol.now self.now.i self.now.j }
    {
        self.same_cell(cells::KIND)
            && self.same_cell(cells::R)
            && self.same_cell(cells::S)
            && self.same_content()
    }

    // Whether they may hold the same: most that do not are told by their cells, before any bytes are looked at.
    fn alike(&self) -> bool
        ensures { result ≡ false → eq_own self.now.table.now self.now.symbol.now self.now.i self.now.j ≡ false }
    {
        if !self.same_cell(cells::KIND) {
            return false;
        }
        match self.content() {
            Content::Numbers => self.same_cell(cells::P),
            Content::Bytes => {
                let (a, b) = self.bytes();
                a.len() == b.len()
            }
            Content::Encoded => true,
        }
    }

    // Whether they have one kind and the same numbers.
    #[inline(always)]
    fn same_numbers(&self) -> bool
        ensures { result ≡ eq_numbers self.now.table.now self.now.i self.now.j }
    {
        self.same_cell(cells::KIND)
            && self.same_cell(cells::P)
            && self.same_cell(cells::Q)
            && self.same_cell(cells::R)
            && self.same_cell(cells::S)
    }

    // Whether they have the same references.
    #[inline(always)]
    fn same_kids(&self) -> bool
        ensures { result ≡ eq_kids self.now.table.now self.now.i self.now.j }
    {
        self.same_kid(cells::A) && self.same_kid(cells::B) && self.same_kid(cells::C)
    }

    fn same_kid(&self, c: usize) -> bool
        requires { c < 12 }
        ensures { result ≡ eqb (kid_of self.now.table.now self.now.i c) (kid_of self.now.table.now self.now.j c) }
    {
        let (r, q) = self.kids(c);
        r == q
    }

    // What a visit takes from the budget: names may be long, and are compared byte by byte.
    fn cost(&self) -> usize
        ensures { result < 2 ^ 32 }
    {
        match self.content() {
            Content::Numbers => 1,
            _ => self.cells(cells::Q).0 / BYTES_A_VISIT + 1,
        }
    }
}

// The budget of a plain recursion: 32 visits to nodes without bytes.
pub const VISITS: usize = 32;

// So many bytes cost as much as a visit.
const BYTES_A_VISIT: usize = 16;

// How many steps along first references end in a note if the rest differs.
const STRETCH: usize = 64;

// Why two references are not told to mean the same: they differ, or the budget is spent.
#[derive(Clone, Copy)]
pub enum Unequal {
    Differ,
    Spent,
}

// Two references, each to a node that the table has, or to none.
// What the links say stays a clause: `same_linked` is lent them for several questions, and promises it to its caller.
#[derive(Clone, Copy)]
struct Refs<'a> {
    table: &'a [u32],
    symbol: &'a [u8],
    r: usize,
    q: usize,
    ghost first_held: { r ≤ nodes table.now },
    ghost second_held: { q ≤ nodes table.now },
}

impl<'a> Refs<'a> {
    // Whether they are told to mean the same by their cells alone: one reference, or nodes with the same cells.
    #[inline(always)]
    fn are_twins(&self) -> bool
        ensures { (s : List ℕ) → result ≡ true → tree_of self.now.table.now s self.now.r ≡ tree_of self.now.table.now s self.now.q }
    {
        let Refs {
            table,
            symbol,
            r,
            q,
        } = *self;
        if r == q {
            return true;
        }
        if r == 0 || q == 0 {
            return false;
        }
        let pair = Pair {
            table,
            symbol,
            i: r - 1,
            j: q - 1,
        };
        pair.same_kids() && pair.same_numbers()
    }

    // Whether they are told to mean the same by their cells, or by links.
    #[inline(always)]
    fn met(&self, links: &mut [u16]) -> bool
        requires { Links (tree_of self.now.table.now self.now.symbol.now) links.old }
        ensures { (result ≡ true → tree_of self.now.table.now self.now.symbol.now self.now.r ≡ tree_of self.now.table.now self.now.symbol.now self.now.q) × Links (tree_of self.now.table.now self.now.symbol.now) links.new }
    {
        if self.are_twins() {
            return true;
        }
        find(links, self.r) == find(links, self.q)
    }

    // Links them, of equal meaning, and so on along their chains of first references.
    #[inline(always)]
    fn join(&self, links: &mut [u16])
        requires links { Links (tree_of self.now.table.now self.now.symbol.now) links.old }
        requires same { tree_of self.now.table.now self.now.symbol.now self.now.r ≡ tree_of self.now.table.now self.now.symbol.now self.now.q }
        ensures { Links (tree_of self.now.table.now self.now.symbol.now) links.new }
    {
        let Refs { table, symbol, .. } = *self;
        let mut x = self.r;
        let mut y = self.q;
        while x != y {
            let pair = Pair {
                table,
                symbol,
                i: x - 1,
                j: y - 1,
            };
            link(links, x, y);
            let (a, b) = pair.kids(cells::A);
            x = find(links, a);
            y = find(links, b);
        }
    }
}

// The functions that call each other take what they go by one by one: a struct would stand in the frame of each call, and
// they go as deep as the table does.

// Whether r and q mean the same: links to what is found equal, and a note of what is found to differ.
#[cycle(walks)]
fn linked(table: &[u32], symbol: &[u8], links: &mut [u16], r: usize, q: usize) -> bool
    requires held { (r ≤ nodes table.now) × (q ≤ nodes table.now) }
    requires links { Links (tree_of table.now symbol.now) links.old }
    ensures { (result ≡ eq_tree (tree_of table.now symbol.now r) (tree_of table.now symbol.now q)) × Links (tree_of table.now symbol.now) links.new }
{
    let x = find(links, r);
    let y = find(links, q);
    if x == y {
        return true;
    }
    if x == 0 || y == 0 {
        return false;
    }
    if walk(table, symbol, links, x, y) {
        Refs {
            table,
            symbol,
            r: x,
            q: y,
        }
        .join(links);
        return true;
    }
    note(links, x, y);
    false
}

// The second references of nodes i and j: entries of lists, mostly, of which most are told at once.
#[cycle(walks)]
fn second(table: &[u32], symbol: &[u8], links: &mut [u16], i: usize, j: usize) -> bool
    requires held { (i < nodes table.now) × (j < nodes table.now) }
    requires links { Links (tree_of table.now symbol.now) links.old }
    ensures { (result ≡ eq_tree (tree_of table.now symbol.now (kid_of table.now i cells.B)) (tree_of table.now symbol.now (kid_of table.now j cells.B))) × Links (tree_of table.now symbol.now) links.new }
{
    let pair = Pair {
        table,
        symbol,
        i,
        j,
    };
    let (r, q) = pair.kids(cells::B);
    let kids = Refs {
        table,
        symbol,
        r,
        q,
    };
    kids.met(links) || linked(table, symbol, links, r, q)
}

// Their third references: few kinds have one, so nothing but their numbers is asked first.
#[cycle(walks)]
fn third(table: &[u32], symbol: &[u8], links: &mut [u16], i: usize, j: usize) -> bool
    requires held { (i < nodes table.now) × (j < nodes table.now) }
    requires links { Links (tree_of table.now symbol.now) links.old }
    ensures { (result ≡ eq_tree (tree_of table.now symbol.now (kid_of table.now i cells.C)) (tree_of table.now symbol.now (kid_of table.now j cells.C))) × Links (tree_of table.now symbol.now) links.new }
{
    let pair = Pair {
        table,
        symbol,
        i,
        j,
    };
    let (r, q) = pair.kids(cells::C);
    if r == q {
        return true;
    }
    linked(table, symbol, links, r, q)
}

// What nodes i and j hold, and their second and third references.
#[cycle(walks)]
fn same_but_first(table: &[u32], symbol: &[u8], links: &mut [u16], i: usize, j: usize) -> bool
    requires held { (i < nodes table.now) × (j < nodes table.now) }
    requires links { Links (tree_of table.now symbol.now) links.old }
    ensures { (result ≡ eq_but_first table.now symbol.now i j) × Links (tree_of table.now symbol.now) links.new }
{
    let pair = Pair {
        table,
        symbol,
        i,
        j,
    };
    pair.same_own() && second(table, symbol, links, i, j) && third(table, symbol, links, i, j)
}

// Recursion over the second and the third references and a loop along the first.
#[cycle(walks)]
fn walk(table: &[u32], symbol: &[u8], links: &mut [u16], r: usize, q: usize) -> bool
    requires held { (r ≤ nodes table.now) × (q ≤ nodes table.now) }
    requires links { Links (tree_of table.now symbol.now) links.old }
    ensures { (result ≡ eq_tree (tree_of table.now symbol.now r) (tree_of table.now symbol.now q)) × Links (tree_of table.now symbol.now) links.new }
{
    let mut x = r;
    let mut y = q;
    let mut left = STRETCH;
    while x != y {
        if x == 0 || y == 0 || noted(links, x, y) {
            return false;
        }
        let pair = Pair {
            table,
            symbol,
            i: x - 1,
            j: y - 1,
        };
        if !same_but_first(table, symbol, links, x - 1, y - 1) {
            return false;
        }
        let (v, w) = pair.kids(cells::A);
        left -= 1;
        if left == 0 {
            return linked(table, symbol, links, v, w);
        }
        x = find(links, v);
        y = find(links, w);
    }
    true
}

// The first references of nodes i and j: most that differ are no twins, so nothing but their numbers is asked first.
#[inline(always)]
#[cycle(plainly)]
fn plain_first(
    table: &[u32],
    symbol: &[u8],
    i: usize,
    j: usize,
    left: usize,
) -> Result<usize, Unequal>
    requires { (i < nodes table.now) × (j < nodes table.now) }
    ensures { Judged (eq_tree (tree_of table.now symbol.now (kid_of table.now i cells.A)) (tree_of table.now symbol.now (kid_of table.now j cells.A))) result }
{
    let pair = Pair {
        table,
        symbol,
        i,
        j,
    };
    let (r, q) = pair.kids(cells::A);
    if r == q {
        return Ok(left);
    }
    plain(table, symbol, r, q, left)
}

// Their second or third references, after others: many that differ in number are twins.
#[inline(always)]
#[cycle(plainly)]
fn plain_kids(
    table: &[u32],
    symbol: &[u8],
    i: usize,
    j: usize,
    c: usize,
    left: usize,
) -> Result<usize, Unequal>
    requires held { (i < nodes table.now) × (j < nodes table.now) }
    requires cell { c < 12 }
    ensures { Judged (eq_tree (tree_of table.now symbol.now (kid_of table.now i c)) (tree_of table.now symbol.now (kid_of table.now j c))) result }
{
    let pair = Pair {
        table,
        symbol,
        i,
        j,
    };
    let (r, q) = pair.kids(c);
    if r == q {
        return Ok(left);
    }
    let kids = Refs {
        table,
        symbol,
        r,
        q,
    };
    if kids.are_twins() {
        Ok(left)
    } else {
        plain(table, symbol, r, q, left)
    }
}

// Plain recursion: what is left of the budget if r and q mean the same.
#[cycle(plainly)]
fn plain(table: &[u32], symbol: &[u8], r: usize, q: usize, left: usize) -> Result<usize, Unequal>
    requires { (r ≤ nodes table.now) × (q ≤ nodes table.now) }
    ensures { Judged (eq_tree (tree_of table.now symbol.now r) (tree_of table.now symbol.now q)) result }
{
    if r == q {
        return Ok(left);
    }
    if r == 0 || q == 0 {
        return Err(Unequal::Differ);
    }
    let i = r - 1;
    let j = q - 1;
    let pair = Pair {
        table,
        symbol,
        i,
        j,
    };
    if !pair.same_own() {
        return Err(Unequal::Differ);
    }
    let left = left.checked_sub(pair.cost()).ok_or(Unequal::Spent)?;
    let left = plain_first(table, symbol, i, j, left)?;
    let left = plain_kids(table, symbol, i, j, cells::B, left)?;
    plain_kids(table, symbol, i, j, cells::C, left)
}

// Whether r means what a node past the table does: no kind, no numbers, no references.
fn blank(table: &[u32], r: usize) -> bool
    requires { 1 ≤ r }
    ensures { result ≡ is_blank table.now (r - 1) }
{
    let n = r - 1;
    let numbers = node::cell(table, n, cells::P)
        + node::cell(table, n, cells::Q)
        + node::cell(table, n, cells::R)
        + node::cell(table, n, cells::S);
    node::cell(table, n, cells::KIND) + numbers == 0
        && kid(table, n, cells::A) == 0
        && kid(table, n, cells::B) == 0
        && kid(table, n, cells::C) == 0
}

// Yes or no as an answer within a budget.
fn told(same: bool, left: usize) -> Result<usize, Unequal>
    ensures { Judged same result × (result ≡ Err Spent → ⊥) }
{
    if same { Ok(left) } else { Err(Unequal::Differ) }
}

// Whether r and q mean the same, within a budget: if so, what is left of it.
// Most that are asked for differ in what they hold themselves.
pub fn judge(
    table: &[u32],
    symbol: &[u8],
    r: usize,
    q: usize,
    left: usize,
) -> Result<usize, Unequal>
    ensures { Judged (eq_tree (tree_of table.now symbol.now r) (tree_of table.now symbol.now q)) result }
{
    if r == 0 || q == 0 {
        return told(r == q, left);
    }
    let n = node::room(table);
    if n < r {
        return told(blank(table, q), left);
    }
    if n < q {
        return told(blank(table, r), left);
    }
    let nodes = Pair {
        table,
        symbol,
        i: r - 1,
        j: q - 1,
    };
    if nodes.alike() {
        plain(table, symbol, r, q, left)
    } else {
        Err(Unequal::Differ)
    }
}

// The same without a budget, and with links: those of several questions may stand in one slice.
pub fn same_linked(table: &[u32], symbol: &[u8], links: &mut [u16], r: usize, q: usize) -> bool
    requires { Links (tree_of table.now symbol.now) links.old }
    ensures { (result ≡ eq_tree (tree_of table.now symbol.now r) (tree_of table.now symbol.now q)) × Links (tree_of table.now symbol.now) links.new }
{
    if r == 0 || q == 0 {
        return r == q;
    }
    let n = node::room(table);
    if n < r {
        return blank(table, q);
    }
    if n < q {
        return blank(table, r);
    }
    linked(table, symbol, links, r, q)
}

// Whether r and q mean the same.
pub fn same(table: &[u32], symbol: &[u8], r: usize, q: usize) -> bool
    ensures { result ≡ eq_tree (tree_of table.now symbol.now r) (tree_of table.now symbol.now q) }
{
    match judge(table, symbol, r, q, VISITS) {
        Ok(_) => true,
        Err(Unequal::Differ) => false,
        Err(Unequal::Spent) => {
            let mut links = [0u16; LINKS];
            same_linked(table, symbol, &mut links, r, q)
        }
    }
}

// What the writers look up in the table, and walks along lists. A reference is the table's own: a node's number and
// one, or 0 for none (docs/NODES.md), and a list leads from its last place to its first.
ghost use Rattle.std.specs.Prelude.{◌≡◌, ℕ, ◌-◌, ◌<◌, ◌≤◌, false, List};
ghost use Rattle.node.specs.Cells.{cell_of, B};
ghost use Rattle.meaning.specs.Tree.{tree_of, kid_of};
ghost use Rattle.serializer.specs.Serializer.{kind_of, has_some, is_literal};
ghost use Rattle.serializer.specs.Pieces.{guard_of};
ghost use Rattle.serializer.specs.Lists.{is_pack, count_some, skip_packs, without_last, first_entry};

use meaning::kid;
use node::{cells, kinds};
use operators::LITERAL_OPERATOR_NAME;

// Cell j of node n.
pub fn number(table: &[u32], n: usize, j: usize) -> u32
    ensures { result ≡ cell_of table.now n j }
{
    node::cell(table, n, j) as u32
}

// The kind of what r names; 0 where it names nothing.
pub fn kind_at(table: &[u32], r: usize) -> u32
    ensures { (s : List ℕ) → result ≡ kind_of (tree_of table.now s r) }
{
    if r == 0 {
        return 0;
    }
    node::kind(table, r - 1)
}

// Whether a name is the operator `""`.
pub fn is_literal(table: &[u32], r: usize) -> bool
    ensures { (s : List ℕ) → result ≡ is_literal (tree_of table.now s r) }
{
    if kind_at(table, r) == kinds::OPERATOR {
        return number(table, r - 1, cells::P) == LITERAL_OPERATOR_NAME;
    }
    false
}

// The guard that the owner of a symbol gives it.
pub fn guard_at(table: &[u32], up: usize) -> u32
    ensures { (s : List ℕ) → result ≡ guard_of (tree_of table.now s up) }
{
    if kind_at(table, up) == kinds::PARSE_RESULT {
        return number(table, up - 1, cells::P);
    }
    0
}

// Whether a list has an entry that is not an empty pack.
pub fn has_some(table: &[u32], r: usize) -> bool
    ensures { (s : List ℕ) → result ≡ has_some (tree_of table.now s r) }
{
    skip_packs(table, r) != 0
}

// The list up to its last entry that is not an empty pack.
pub fn skip_packs(table: &[u32], r: usize) -> usize
    ensures { ((s : List ℕ) → tree_of table.now s result ≡ skip_packs (tree_of table.now s r)) × (result ≤ r) × (0 < result → (s : List ℕ) → is_pack (tree_of table.now s (kid_of table.now (result - 1) B)) ≡ false) }
{
    let mut p = r;
    while 0 < p {
        let i = p - 1;
        if kind_at(table, kid(table, i, cells::B)) != kinds::EMPTY_PARAMETER_PACK {
            break;
        }
        p = kid(table, i, cells::A);
    }
    p
}

// How many entries are not empty packs.
pub fn count_some(table: &[u32], r: usize) -> usize
    ensures { ((s : List ℕ) → result ≡ count_some (tree_of table.now s r)) × (result ≤ r) }
{
    let mut n = 0;
    let mut p = skip_packs(table, r);
    while 0 < p {
        p = skip_packs(table, kid(table, p - 1, cells::A));
        n += 1;
    }
    n
}

// The list without its last h entries that are not empty packs.
pub fn without_last(table: &[u32], r: usize, h: usize) -> usize
    ensures { ((s : List ℕ) → tree_of table.now s result ≡ without_last (tree_of table.now s r) h) × (result ≤ r) × (0 < h → 0 < r → result < r) }
{
    let mut p = r;
    for _ in 0..h {
        let q = skip_packs(table, p);
        if q == 0 {
            return 0;
        }
        p = kid(table, q - 1, cells::A);
    }
    p
}

// The entry of a list's first place.
pub fn first_entry(table: &[u32], r: usize) -> usize
    requires { 0 < r }
    ensures { ((s : List ℕ) → tree_of table.now s result ≡ first_entry (tree_of table.now s r)) × (result < r) }
{
    let mut p = r;
    loop {
        let i = p - 1;
        let before = kid(table, i, cells::A);
        if before == 0 {
            break kid(table, i, cells::B);
        }
        p = before;
    }
}

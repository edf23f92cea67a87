// Equality of meaning for callers in C or Rust.
#![tactic(auto)]

ghost use Rattle.std.specs.Prelude.{◌≡◌};
ghost use Rattle.meaning.specs.Tree.{tree_of, eq_tree};

// Whether the references r and q of a table mean the same.
#[unsafe(no_mangle)]
pub extern "C" fn farthingmoss_same(table: &[u32], symbol: &[u8], r: usize, q: usize) -> bool
    ensures { result ≡ eq_tree (tree_of table.now symbol.now r) (tree_of table.now symbol.now q) }
{
    meaning::same(table, symbol, r, q)
}

// The memo: a stored name or type by its digit, and storing one more.
ghost use Rattle.std.specs.Prelude.{◌≡◌, ◌≤◌, take, drop, Err};
ghost use Rattle.meaning.specs.declared.Unequal.TheVariants.{Spent};
ghost use Rattle.meaning.specs.Tree.{tree_of};
ghost use Rattle.meaning.specs.Links.{Links, Judged};
ghost use Rattle.grammar.specs.Program as store;
ghost use Rattle.grammar.specs.Program.{any_of, with};
ghost use Rattle.grammar.specs.Grammar.{empty_memo};
ghost use Rattle.grammar.specs.Words.{name_of, type_of};
ghost use Rattle.grammar.specs.Table.{counted};
ghost use Rattle.steps.specs.Does.{same_in, Finds, Adds, Keeps, stored_at};

use grammar::{ENTRIES, Entries, Memo, Refusal, State};
use meaning::links::LINKS;
use meaning::{Unequal, VISITS};
use std::mem;

// No entry is in use.
pub const EMPTY: Memo = Memo {
    names: [0; ENTRIES],
    types: [0; ENTRIES],
    names_len: 0,
    types_len: 0,
};

// A memo with so many names or types stores no more.
const FULL: u8 = ENTRIES as u8;

// The entry i of those in use.
fn stored(entries: Entries, len: u8, i: u32) -> Result<u16, Refusal>
    ensures { result ≡ stored_at entries len i }
{
    if u32::from(len) <= i {
        return Err(Refusal::Syntax);
    }
    let k = i as usize;
    Ok(if k < ENTRIES { entries[k] } else { 0 })
}

// Each half of the memo by its name, here and where one more is stored, as in the crate: `stored` and `add` do both.
pub fn name_of(st: &State, i: u32) -> Result<u16, Refusal>
    ensures { Finds (name_of i) st.now result }
{
    stored(st.memo.names, st.memo.names_len, i)
}

pub fn type_of(st: &State, i: u32) -> Result<u16, Refusal>
    ensures { Finds (type_of i) st.now result }
{
    stored(st.memo.types, st.memo.types_len, i)
}

// The counted part of the table.
pub fn counted(t: &[u32], used: u16) -> &[u32]
    ensures { result.now ≡ counted used t.now }
{
    let n = (used as usize) * node::CELLS;
    if n <= t.len() { &t[..n] } else { t }
}

// Does one of the entries mean the same as the node n? What one question links serves the next.
fn sought_over(front: &[u32], s: &[u8], entries: &[u16], links: &mut [u16], n: u16) -> bool
    requires { Links (tree_of front.now s.now) links.old }
    ensures { result ≡ any_of (same_in front.now s.now n) entries.now }
{
    for e in entries {
        if meaning::same_linked(front, s, links, usize::from(n) + 1, usize::from(*e) + 1) {
            return true;
        }
    }
    false
}

// Most symbols count no more nodes, and have no more links cleared.
const FEW: usize = 1024;

// The same with no links yet.
fn sought_linked(front: &[u32], s: &[u8], entries: &[u16], n: u16) -> bool
    ensures { result ≡ any_of (same_in front.now s.now n) entries.now }
{
    if node::room(front) <= FEW {
        let mut links = [0u16; FEW];
        return sought_over(front, s, entries, &mut links, n);
    }
    let mut links = [0u16; LINKS];
    sought_over(front, s, entries, &mut links, n)
}

// The same of the entries from a place on, within a budget for each. Where it is spent for one, others come first:
// one may be told at once. The outermost call, from 0 on, answers with links.
// A caller would get their array into its frame; this calls itself, and does not.
fn sought(front: &[u32], s: &[u8], entries: &[u16], from: usize, n: u16) -> Result<(), Unequal>
    ensures { Judged (any_of (same_in front.now s.now n) (drop from entries.now)) result × (from ≡ 0 → result ≡ Err Spent → ⊥) }
{
    for i in from..entries.len() {
        match meaning::judge(
            front,
            s,
            usize::from(n) + 1,
            usize::from(entries[i]) + 1,
            VISITS,
        ) {
            Ok(_) => return Ok(()),
            Err(Unequal::Differ) => {}
            Err(Unequal::Spent) => {
                if sought(front, s, entries, i + 1, n).is_ok() {
                    return Ok(());
                }
                if 0 < from {
                    return Err(Unequal::Spent);
                }
                let held = sought_linked(front, s, &entries[i..], n);
                return if held { Ok(()) } else { Err(Unequal::Differ) };
            }
        }
    }
    Err(Unequal::Differ)
}

// Does one of the first entries mean the same as the node n? It may be that node.
fn holds(front: &[u32], s: &[u8], entries: Entries, len: u8, n: u16) -> bool
    requires { len ≤ 10 }
    ensures { result ≡ any_of (same_in front.now s.now n) (take len entries) }
{
    let first = &entries[..usize::from(len)];
    if first.contains(&n) {
        return true;
    }
    sought(front, s, first, 0, n).is_ok()
}

// Stores the node n in one half of the memo, unless that is full or holds an equal one.
fn add(t: &[u32], s: &[u8], used: u16, entries: &mut Entries, len: &mut u8, n: u16)
    ensures { Adds s.now used t.now n entries.old len.old entries.new len.new }
{
    let first = *len;
    if FULL <= first {
        return;
    }
    let held = *entries;
    if holds(counted(t, used), s, held, first, n) {
        return;
    }
    entries[first as usize] = n;
    *len = first + 1;
}

// The memo goes aside, and an empty one takes its place.
pub fn aside(st: &mut State) -> Memo
    ensures value { result ≡ st.old.memo }
    ensures state { st.new ≡ with empty_memo st.old }
{
    mem::replace(&mut st.memo, EMPTY)
}

// The memo comes back.
pub fn put_back(st: &mut State, outer: Memo)
    ensures { st.new ≡ with outer st.old }
{
    st.memo = outer;
}

pub fn memorize_name(t: &[u32], s: &[u8], st: &mut State, n: u16)
    ensures { Keeps s.now store.names n t.now st.old st.new }
{
    let memo = &mut st.memo;
    add(t, s, st.used, &mut memo.names, &mut memo.names_len, n);
}

pub fn memorize_type(t: &[u32], s: &[u8], st: &mut State, n: u16)
    ensures { Keeps s.now store.types n t.now st.old st.new }
{
    let memo = &mut st.memo;
    add(t, s, st.used, &mut memo.types, &mut memo.types_len, n);
}

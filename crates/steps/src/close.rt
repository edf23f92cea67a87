// Closing a node: its height against the limit, then the room, then its cells.
ghost use Rattle.std.specs.Prelude.{◌≡◌, [], ◌∷◌, ℕ, ◌+◌, ◌<◌, ◌^◌, IfOk};
ghost use Rattle.grammar.specs.Table.{laid, tallest_in};
ghost use Rattle.grammar.specs.Grammar.{to};
ghost use Rattle.steps.specs.Does.{Does, Puts, Lays, Shuts, place_of};

use crate::memo::counted;
use crate::reader::Reader;
use grammar::{Refusal, State};
use node::{Node, kinds};

// A node of no kind, which refers to none and has no number; its height comes when it closes.
pub const BLANK: Node = Node {
    kind: 0,
    height: 0,
    a: 0,
    b: 0,
    c: 0,
    p: 0,
    q: 0,
    r: 0,
    s: 0,
};

// The reference to a node.
pub fn to(n: u16) -> u32
    ensures { result ≡ to n }
{
    u32::from(n) + 1
}

fn tallest(front: &[u32], x: Node) -> usize
    ensures { (result ≡ tallest_in front.now (x.a ∷ x.b ∷ x.c ∷ [])) × (result < 2 ^ 32) }
{
    let a = node::height(front, x.a as usize);
    let b = node::height(front, x.b as usize);
    let c = node::height(front, x.c as usize);
    a.max(b.max(c))
}

impl Reader<'_> {
    // Counts the node x where there is room for one more; it asks for this depth. Its reference has sixteen bits.
    fn put(self, t: &mut [u32], st: &mut State, x: Node, depth: u16) -> Result<u16, Refusal>
        ensures puts { Puts self.entry depth x st.old t.old result st.new t.new }
        ensures small { IfOk result (λ n. n + 1 < 65536) }
    {
        let used = st.used;
        if self.room <= used {
            return Err(Refusal::Full);
        }
        node::put_node(t, used as usize, x);
        st.used = used + 1;
        st.deep = st.deep.max(depth);
        Ok(used)
    }

    // Closes the node x, which refers to nodes of this height.
    fn lay(self, t: &mut [u32], st: &mut State, x: Node, top: usize) -> Result<u16, Refusal>
        requires { top < 2 ^ 32 }
        ensures lays { Lays self.entry top x st.old t.old result st.new t.new }
        ensures small { IfOk result (λ n. n + 1 < 65536) }
    {
        if x.kind <= kinds::TYPE_PLACE {
            let height = top as u32;
            return self.put(t, st, Node { height, ..x }, 0);
        }
        if (self.depth as usize) <= top {
            return Err(Refusal::Deep);
        }
        let height = (top + 1) as u32;
        self.put(t, st, Node { height, ..x }, height as u16)
    }

    pub fn shut(self, t: &mut [u32], st: &mut State, x: Node) -> Result<u16, Refusal>
        ensures shuts { Shuts self.entry x st.old t.old result st.new t.new }
        ensures small { IfOk result (λ n. n + 1 < 65536) }
    {
        let top = tallest(counted(t, st.used), x);
        self.lay(t, st, x, top)
    }

    // A node that refers to none.
    pub fn shut_leaf(
        self,
        t: &mut [u32],
        st: &mut State,
        kind: u32,
        p: u32,
        q: u32,
    ) -> Result<u16, Refusal>
        ensures { Shuts self.entry (laid kind 0 (p ∷ q ∷ []) []) st.old t.old result st.new t.new }
    {
        self.lay(
            t,
            st,
            Node {
                kind,
                p,
                q,
                ..BLANK
            },
            0,
        )
    }

    // A node above another one.
    pub fn above(
        self,
        t: &mut [u32],
        st: &mut State,
        n: u16,
        kind: u32,
        p: u32,
        q: u32,
    ) -> Result<u16, Refusal>
        ensures { Shuts self.entry (laid kind 0 (p ∷ q ∷ []) (to n ∷ [])) st.old t.old result st.new t.new }
    {
        let a = to(n);
        self.shut(
            t,
            st,
            Node {
                kind,
                a,
                p,
                q,
                ..BLANK
            },
        )
    }

    // A place behind the last one of a list, for an entry: the answer is the reference to it.
    pub fn place(
        self,
        t: &mut [u32],
        st: &mut State,
        entry: u16,
        kind: u32,
        last: u16,
    ) -> Result<u16, Refusal>
        ensures { (d : ℕ) → Does self.entry d (place_of kind entry last) st.old t.old result st.new t.new }
    {
        let a = u32::from(last);
        let b = to(entry);
        let p = self.shut(
            t,
            st,
            Node {
                kind,
                a,
                b,
                ..BLANK
            },
        )?;
        Ok(p + 1)
    }
}

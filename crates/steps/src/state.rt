// How the state of a reading moves: a part opens, bytes are passed.
ghost use Rattle.std.specs.Prelude.{◌≡◌, ◌+◌, ◌-◌, ◌<◌};
ghost use Rattle.grammar.specs.Program.{at+};
ghost use Rattle.grammar.specs.Counts.{opened};
ghost use Rattle.steps.specs.Does.{Opening};

use crate::reader::Reader;
use grammar::{Refusal, State};

// One part more is open, and so many more may open.
pub fn opened(st: &mut State, limit: u16, left: u16)
    ensures { st.new ≡ opened (limit - left) st.old }
{
    st.deep = st.deep.max(limit.saturating_sub(left));
}

impl Reader<'_> {
    // Opens a part where one more may open: how many more may then.
    pub fn open(self, st: &mut State, depth: u16) -> Result<u16, Refusal>
        ensures { Opening self.entry depth st.old result st.new }
    {
        if depth == 0 {
            return Err(Refusal::Deep);
        }
        let left = depth - 1;
        opened(st, self.depth, left);
        Ok(left)
    }
}

// Goes n bytes further.
pub fn pass(st: &mut State, n: usize)
    requires { st.old.at + n < 65536 }
    ensures { st.new ≡ at+ n st.old }
{
    st.at += n as u16;
}

// The whole reading of a symbol into a lent node table: what it answers, and what it leaves.
#![tactic(auto)]

ghost use Rattle.std.specs.Prelude.{◌≡◌, min};
ghost use Rattle.node.specs.Cells.{nodes};
ghost use Rattle.reader.specs.Whole.{unread_number, answered, table_left};
ghost use Rattle.scan.specs.Limits.{most_nodes};

use cycle::parse;
use grammar::{Refusal, State};
use scan::limits::{DEEPEST_READING, LONGEST_SYMBOL, MOST_NODES};
use steps::memo::EMPTY;
use steps::reader::Reader;

// Why nothing is read of a symbol, or within a depth, above the limits; or what refuses the reading.
#[derive(Clone, Copy)]
pub enum Unread {
    Outside,
    Refused(Refusal),
}

impl Unread {
    // Its number, as callers have it.
    pub fn number(self) -> u8
        ensures { result ≡ unread_number self }
    {
        match self {
            Unread::Outside => 1,
            Unread::Refused(Refusal::Syntax) => 3,
            Unread::Refused(Refusal::Deep) => 4,
            Unread::Refused(Refusal::Full) => 5,
        }
    }
}

// A reading's root or refusal. Its state stands beside both: a refusal has a place and counts too.
#[derive(Clone, Copy)]
pub struct Outcome {
    pub answer: Result<u16, Unread>,
    pub state: State,
}

// A reading begins with an empty memo.
const START: State = State {
    at: 0,
    used: 0,
    deep: 0,
    memo: EMPTY,
};

// The nodes that a reading may count: no symbol asks for more than the most.
fn room_of(t: &[u32]) -> u16
    ensures { result ≡ min most_nodes (nodes t.now) }
{
    MOST_NODES.min(node::room(t)) as u16
}

// Reads a symbol. A refusal leaves the nodes that were counted as zeros.
pub fn read(s: &[u8], t: &mut [u32], limit: u16) -> Outcome
    ensures value { result ≡ answered s.now limit t.old }
    ensures t_after { t.new ≡ table_left s.now limit t.old }
{
    let mut state = START;
    if LONGEST_SYMBOL < s.len() || DEEPEST_READING < limit {
        let answer = Err(Unread::Outside);
        return Outcome { answer, state };
    }
    let r = Reader {
        s,
        depth: limit,
        room: room_of(t),
    };
    let answer = match parse(r, t, &mut state, limit) {
        Ok(n) => Ok(n),
        Err(why) => {
            t[..state.used as usize * node::CELLS].fill(0);
            Err(Unread::Refused(why))
        }
    };
    Outcome { answer, state }
}

// The line that answers a line of the program's input.
#![tactic(auto)]

ghost use Rattle.std.specs.Prelude.{◌≡◌, ◌≤◌, Ok, length};
ghost use Rattle.text.specs.Emit.{Wrote, lit};
ghost use Rattle.text.specs.Buffer.{Writes};
ghost use Rattle.farthingmoss.specs.declared.Counts.{Counts};
ghost use Rattle.answer_line.specs.Line.{ok_line, no_line, answer_line, line_of, line_cells, line_text};

use farthingmoss::{Counts, Refused, demangle};
use scan::limits::DEEPEST_READING;
use text::buffer::Buffer;

const FLAGS: u32 = 0;

const DEPTH: u32 = DEEPEST_READING as u32;

// The program's table of 1,024 nodes, its room for a text, and the longest answer: `ok`, tab, text, newline.
pub const TABLE: usize = 1024 * node::CELLS;

pub const TEXT: usize = 4_096;

pub const LONGEST_ANSWER: usize = TEXT + 4;

fn put_text(out: &mut Buffer, text: &[u8])
    ensures { Writes (lit (ok_line text.now)) out.old out.new }
{
    out.put_bytes(b"ok\t");
    out.put_bytes(text);
    out.put(b'\n');
}

fn put_refusal(out: &mut Buffer, number: usize, offset: usize)
    ensures { Writes (lit (no_line number offset)) out.old out.new }
{
    out.put_bytes(b"no\t");
    out.put_usize(number);
    out.put(b'\t');
    out.put_usize(offset);
    out.put(b'\n');
}

fn put_answer(out: &mut Buffer, a: Result<Counts, Refused>, text: &[u8])
    requires { (c : Counts) → a ≡ Ok c → c.text ≤ length text.now }
    ensures { Writes (lit (answer_line a text.now)) out.old out.new }
{
    match a {
        Ok(c) => put_text(out, &text[..c.text]),
        Err(e) => put_refusal(out, e.number() as usize, e.counts().offset),
    }
}

// The answer to a line; table and text are not cleared before, and need not be.
pub fn answer_line(
    line: &[u8],
    out: &mut [u8],
    o: usize,
    table: &mut [u32],
    text: &mut [u8],
) -> usize
    requires table_len { length table.old ≡ line_cells }
    requires text_len { length text.old ≡ line_text }
    ensures { Wrote (lit (line_of line.now)) out.old o out.new result }
{
    let a = demangle(line, FLAGS, DEPTH, table, text);
    let mut to = Buffer { bytes: out, at: o };
    put_answer(&mut to, a, text);
    to.at
}
